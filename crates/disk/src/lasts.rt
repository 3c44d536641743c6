// Saved answers: what stands before them, and whether they belong to a file.
ghost use Rattle.std.specs.Prelude.{◌≡◌, true, ◌+◌, ◌≤◌, length};
ghost use Rattle.disk.specs.Last.{head_of, head_size, belongs as Last·belongs};

// The bytes of the number of words.
pub const HEAD: usize = 4;

// The bytes of the longest, the head, a file and all that is written for a job, and one byte more.
const LAST: usize = HEAD + crate::BYTES + reader::WHOLE + 1;

// How many words a file has, in four bytes, the lowest first.
pub fn head(file: &[u8]) -> [u8; HEAD]
    ensures { result ≡ head_of file.now }
{
    let [a, b, c, d, ..] = (file.len() / 4).to_le_bytes();
    [a, b, c, d]
}

// Whether saved answers are those of the job that left exactly these bytes. They stand behind the head and the file's bytes.
pub fn belongs(file: &[u8], last: &[u8]) -> bool
    ensures { result ≡ Last·belongs file.now last.now }
{
    last.starts_with(&head(file)) && last[HEAD..].starts_with(file)
}

// Where the answers begin.
pub fn answers_at(file: &[u8], last: &[u8]) -> usize
    requires { Last·belongs file.now last.now ≡ true }
    ensures { (result ≡ head_size + length file.now) × (result ≤ length last.now) }
{
    HEAD + file.len()
}

// Room for saved answers, and one byte more.
pub fn room() -> [u8; LAST]
    ensures { 78990 ≡ length result }
{
    crate::room()
}
