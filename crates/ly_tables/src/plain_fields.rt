//! Numbers and strings as fields.
ghost use Rattle.std.specs.Prelude.{◌++◌, ◌≡◌, [], refl, length};
ghost use Rattle.std.specs.Int.{w32};
ghost use Rattle.ly_tables.specs.Private.Parts.{IsNumberText, IsStringText};
ghost use Rattle.ly_tables.specs.RawSet.{Fits, IsString};
ghost use Rattle.ly_tables.specs.Spelling.{number, string};

use crate::fault::TableFault;
use crate::field::Field;
use crate::front::{bytes, number, short, wide};
use crate::numbers::number_size;
use ly_base::Version;
use std::alloc::Global;

/// A number of the version.
pub(crate) struct Number;

/// A number of four bytes.
pub(crate) struct Wide;

/// A string: its length in two bytes, and its bytes.
pub(crate) struct Text;

impl Field for Number {
    type Value = u32;

    ghost use Rattle.ly_tables.specs.Private.Found.{some_number};

    ghost spelled = { number };

    ghost fits = { Fits };

    ghost part = { IsNumberText };

    fn may_be_there(version: Version, left: &[u8], count: usize) -> bool {
        left.len() / number_size(version) >= count
    }

    fn read(_alloc: Global, version: Version, left: &[u8]) -> Result<(u32, &[u8]), TableFault> {
        number(version, left)
    }

    ghost is_part = { λ w n fit. record { value = n; fit = fit; is = refl } };

    ghost some_part = { some_number };
}

impl Field for Wide {
    type Value = u32;

    ghost use Rattle.ly_tables.specs.Private.Found.{some_number};

    ghost spelled = { λ w. number w32 };

    ghost fits = { λ w. Fits w32 };

    ghost part = { λ w. IsNumberText w32 };

    fn may_be_there(_version: Version, left: &[u8], count: usize) -> bool {
        left.len() / 4 >= count
    }

    fn read(_alloc: Global, _version: Version, left: &[u8]) -> Result<(u32, &[u8]), TableFault> {
        wide(left)
    }

    ghost is_part = { λ w n fit. record { value = n; fit = fit; is = refl } };

    ghost some_part = { λ w. some_number w32 };
}

impl Field for Text {
    type Value = Vec<u8>;

    ghost use Rattle.ly_tables.specs.Private.Found.{some_string};

    ghost spelled = { λ w text. string text.items };

    ghost fits = { λ w text. IsString text.items };

    ghost part = { λ w. IsStringText };

    fn read(alloc: Global, _version: Version, left: &[u8]) -> Result<(Vec<u8>, &[u8]), TableFault> {
        let (length, behind) = short(left)?;
        let (text, behind) = bytes(behind, length as usize)?;
        Ok((Vec::from_slice(alloc, text)?, behind))
    }

    ghost is_part = { λ w text fit. record { value = text.items; fit = fit; is = refl } };

    ghost some_part = { λ w. some_string };
}
