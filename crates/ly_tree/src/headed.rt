ghost use Rattle.std.specs.Prelude.{◌≡◌, ◌<◌, ◌≤◌, ◌+◌, ◌-◌, [], ◌∷◌, ◌++◌, length, take, drop};
ghost use Rattle.std.specs.Prelude.{map, slice_get, sum, All, OnErr, OnOk, Some};
ghost use Rattle.ly_tree.specs.Private.Headed.{start_after};

use ly_base::OutOfMemory;
use ly_print::are_bytes;
use std::alloc::Global;
use std::marker::Model;

/// The head of a list, and the end of the list among the members.
#[derive(Clone, Copy)]
struct Heading<H> {
    /// The head.
    head: H,
    /// The number of members up to its end, including those of the lists before it.
    end: usize,
}

/// Lists with a head each, one after another in one block.
#[derive(Drop)]
pub(crate) struct Headed<H, T> {
    /// The heads and ends of the lists.
    headings: Vec<Heading<H>>,
    /// The members of all lists.
    members: Vec<T>,
}

impl<H, T> Model for Headed<H, T> {
    ghost use Rattle.std.specs.Prelude.{List};
    ghost use Rattle.std.specs.Coded.{coded_list, coded×};

    ghost Value = { List (H × List T) };

    ghost coded = { coded_list (coded× H.code (coded_list T.code)) };

    ghost use Rattle.ly_tree.specs.Private.Headed.{headed_from, EndsFit};
    ghost use Rattle.std.specs.Prelude.{length};

    ghost view = { λ l. headed_from 0 l.headings.items l.members.items };

    ghost invariant = { λ l. EndsFit 0 l.headings.items (length l.members.items) };
}

impl<H, T> Headed<H, T> {
    /// Without lists.
    pub(crate) fn new(alloc: Global) -> Self
        ensures { result ≡ [] }
    {
        Headed {
            headings: Vec::new(alloc),
            members: Vec::new(alloc),
        }
    }
}

impl<H, T> Headed<H, T> {
    /// The number of lists.
    pub(crate) fn len(&self) -> usize
        ensures { result ≡ length self.now }
    {
        self.headings.len()
    }

    /// The number of members of all lists.
    pub(crate) fn members(&self) -> usize
        ensures { result ≡ sum (map (λ l. length l.1) self.now) }
    {
        self.members.len()
    }
}

impl<H: Copy, T: Copy> Headed<H, T> {
    /// Adds a list. After an error the lists are unchanged.
    pub(crate) fn push(&mut self, head: H, list: &[T]) -> Result<(), OutOfMemory>
        ensures ok { OnOk result (self.new ≡ self.old ++ (head, list.now) ∷ []) }
        ensures err { OnErr result (self.new ≡ self.old) }
    {
        self.headings.reserve(1)?;
        self.members.extend_from_slice(list)?;
        let end = self.members.len();
        self.headings.push_reserved(Heading { head, end });
        Ok(())
    }

    /// The list with this number, and its head.
    pub(crate) fn get(&self, number: usize) -> (H, &[T])
        requires { number < length self.now }
        ensures { slice_get self.now number ≡ Some (result.0, result.1.now) }
    {
        let start = start_of(&self.headings, number);
        let Heading { head, end } = self.headings[number];
        (head, part(&self.members, start, end))
    }
}

/// The members in a range.
fn part<T>(members: &[T], start: usize, end: usize) -> &[T]
    requires rises { start ≤ end }
    requires within { end ≤ length members.now }
    ensures { result.now ≡ take (end - start) (drop start members.now) }
{
    &members[start..end]
}

/// The start of a list, which is the end of the one before it.
fn start_of<H: Copy>(headings: &[Heading<H>], number: usize) -> usize
    requires { number < length headings.now }
    ensures { result ≡ start_after 0 headings.now number }
{
    if number == 0 {
        0
    } else {
        headings[number - 1].end
    }
}

/// Proves that lists of bytes consist of bytes.
pub(crate) fn lists_are_bytes<H>(lists: &Headed<H, u8>)
    ensures { All (λ list. All (λ byte. byte < 256) list.1) lists.now }
{
    are_bytes(&lists.members);
}
