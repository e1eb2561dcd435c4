ghost use Rattle.std.specs.Prelude.{◌≡◌};

/// Returns the version of the calls and their structs.
#[unsafe(no_mangle)]
pub extern "C" fn lytab_version() -> u32
    ensures { result ≡ 1 }
{
    1
}
