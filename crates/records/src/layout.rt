ghost use Rattle.std.specs.Prelude.{◌≡◌, ◌<◌};
ghost use Rattle.records.specs.Layouts.{word_place};

/// How many bytes a record has.
pub const RECORD_LENGTH: usize = 80;

/// Where word `i` stands in a record.
pub(crate) fn word_place(i: usize) -> usize
    requires { i < 16 }
    ensures { result ≡ word_place i }
{
    16 + 4 * i
}
