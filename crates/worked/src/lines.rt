// The worked lines.
ghost use Rattle.std.specs.Prelude.{◌≡◌};
ghost use Rattle.worked.specs.Lines.{WorkedLines};

// What the rules say of every worked line; carries the statement, and answers how many cases it has.
pub fn worked_lines() -> u8
    ensures lines { WorkedLines }
    ensures cases { result ≡ 11 }
{
    11
}
