ghost use Rattle.std.specs.Prelude.{◌≡◌, ◌<◌, None, Some};
ghost use Rattle.ly_base.specs.Entry.{target_of};

/// The target of a start or of a column in a state's row: a state or none. It takes four bytes, so that rows are small.
#[derive(Clone, Copy, Debug, PartialEq, Eq)]
pub struct Entry {
    /// The state's number, or the greatest `u32` if there is none.
    number: u32,
}

impl Entry {
    /// Returns the entry without a target.
    pub fn none() -> Self
        ensures { target_of result ≡ None }
    {
        Entry { number: u32::MAX }
    }

    /// Returns the entry that leads to the state with this number.
    pub fn to(number: u32) -> Self
        requires { number < u32.MAX }
        ensures { target_of result ≡ Some number }
    {
        Entry { number }
    }

    /// Returns the target state, if there is one.
    pub fn state(self) -> Option<u32>
        ensures { result ≡ target_of self }
    {
        if self.number == u32::MAX {
            None
        } else {
            Some(self.number)
        }
    }
}
