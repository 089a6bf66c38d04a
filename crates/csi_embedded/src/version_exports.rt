//! What a C program asks of the library itself, as `include/tufayon.h` declares it.
ghost use Rattle.std.specs.Prelude.{length, take};
ghost use Rattle.csi_embedded.specs.Public.Version.{TellsVersion};

use crate::knowing::fill;

// The version, as the file VERSION at the top of the repository has it.
const VERSION: &str = "1.0.0";

/// The version of the library, MAJOR.MINOR.PATCH in ASCII. `written` says how many bytes it has, also where they don't fit. It takes no memory.
#[unsafe(no_mangle)]
pub extern "C" fn tufayon_version(text: &mut [u8], written: &mut usize) -> u32
    ensures { TellsVersion (length text.old) written.new (take written.new text.new) result }
{
    fill(VERSION.as_bytes(), text, written).number()
}
