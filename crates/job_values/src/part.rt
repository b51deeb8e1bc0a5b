// Parts of a text: where a byte stands, and whether two parts are the same bytes. Relies on nothing.
ghost use Rattle.std.specs.Prelude.{◌≡◌};
ghost use Rattle.job_values.specs.Bytes.{FirstAt, same};

// The first place from `from` on at which the byte stands; the end where there is none.
#[tactic(auto, using(crate::proofs::Cut::search_steps))]
pub fn find(bytes: &[u8], from: usize, byte: u8) -> usize
    ensures { FirstAt bytes.now from byte result }
{
    for i in from..bytes.len() {
        if bytes[i] == byte {
            return i;
        }
    }
    from.max(bytes.len())
}

// Whether the two are the same bytes.
#[tactic(auto, using(crate::proofs::Cut::same_pointwise))]
pub fn alike(bytes: &[u8], word: &[u8]) -> bool
    ensures { result ≡ same bytes.now word.now }
{
    bytes == word
}
