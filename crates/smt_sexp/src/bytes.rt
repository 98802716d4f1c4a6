// Classes of bytes, and the longest run of one.
ghost use Rattle.std.specs.Prelude.{◌≡◌, ◌≤◌, length, take};
ghost use Rattle.smt_sexp.specs.Classes.{is_in};
ghost use Rattle.smt_sexp.specs.Lexicon.{is_digit, is_symbol_byte, is_white, run};

/// What a run of bytes is made of.
#[derive(Clone, Copy, Debug, PartialEq, Eq)]
pub(crate) enum Class {
    White,
    Digit,
    Symbol,
    /// What a comment goes on with: all but the ends of a line.
    Comment,
    /// What a quoted symbol goes on with: all but a bar and a backslash.
    Quoted,
}

impl Class {
    pub(crate) fn has(self, b: u8) -> bool
        ensures { result ≡ is_in self b }
    {
        match self {
            Class::White => is_white(b),
            Class::Digit => is_digit(b),
            Class::Symbol => is_symbol_byte(b),
            Class::Comment => b != b'\n' && b != b'\r',
            Class::Quoted => b != b'|' && b != b'\\',
        }
    }
}

// Space, tab and the ends of a line.
fn is_white(b: u8) -> bool
    ensures { result ≡ is_white b }
{
    matches!(b, b' ' | b'\t' | b'\n' | b'\r')
}

fn is_digit(b: u8) -> bool
    ensures { result ≡ is_digit b }
{
    matches!(b, b'0'..=b'9')
}

// What a simple symbol is made of.
fn is_symbol_byte(b: u8) -> bool
    ensures { result ≡ is_symbol_byte b }
{
    matches!(b, b'a'..=b'z' | b'A'..=b'Z' | b'0'..=b'9'
        | b'~' | b'!' | b'@' | b'$' | b'%' | b'^' | b'&' | b'*' | b'_' | b'-'
        | b'+' | b'=' | b'<' | b'>' | b'.' | b'?' | b'/')
}

/// How many bytes of a class stand first.
pub(crate) fn run_len(class: Class, bytes: &[u8]) -> usize
    ensures length { result ≡ length (run (is_in class) bytes.now) }
    ensures text { take result bytes.now ≡ run (is_in class) bytes.now }
    ensures within { result ≤ length bytes.now }
{
    let mut n = 0;
    while n < bytes.len() && class.has(bytes[n]) {
        n += 1;
    }
    n
}
