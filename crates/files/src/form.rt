// The interface of a file form.
ghost use Rattle.std.specs.Prelude.{◌≡◌, ℕ, List, Ok};
ghost use Rattle.files.specs.declared.fields.Fields.{Fields as Held};
ghost use Rattle.refusals.specs.Parts.{told};
ghost use Rattle.files.specs.Reading.{Reads, Ends};

use crate::fields::Fields;
use refusals::refusal::Refusal;

// A form means how the fields of one event are read from the front of some bytes. They take at least one byte, and leave the
// bytes after theirs.
pub trait Form: Copy {
    ghost read: { Reads };

    ghost ends: { (bs rest : List ℕ) (f : Held) → read bs ≡ Ok (f, rest) → Ends rest bs };

    // The fields of the event that the bytes begin with and the bytes after it; else CutOff, BadByte or BadNumber.
    fn fields(bytes: &[u8]) -> Result<(Fields, &[u8]), Refusal>
        ensures { told result ≡ read bytes.now };
}
