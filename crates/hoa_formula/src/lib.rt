// The acceptance formula of the Hanoi format (docs/RULES.md, "The Hanoi format"): read by one loop over its tokens, with counters and no stack.
// Relies on the crates `hoa_turn`, `hoa_standard`, `hoa_tokens` and `table`. The grammar is in specs/, the standard formulas and the admission of a token in hoa_standard/specs/.
#![tactic(auto)]

ghost use Rattle.std.specs.Prelude.{◌≡◌};
ghost use Rattle.hoa_standard.specs.Formulas.{word_piece, sign_piece};
ghost use Rattle.hoa_formula.specs.Reading.{FormulaAt};
ghost use Rattle.hoa_formula.specs.inner.Ends.{kind_piece, complete_to, standard_read, complete_read, over_read};

use hoa_standard::{Ahead, Past, Piece};
use hoa_tokens::{BadToken, Kind, Sign, Word, token_at};
use hoa_turn::needs::{Needs, counted};
use hoa_turn::step::{Formula, Stage, Turn, step};
use table::Acceptance;

// What is found: a standard formula with its eight needs, 0 unless it is a Rabin one, or one with too few atoms. `next` is where the token behind the formula is read again.
#[derive(Clone, Copy)]
pub enum FormulaRead {
    Standard {
        condition: Acceptance,
        needs: [u32; 8],
        next: usize,
    },
    Short {
        next: usize,
    },
}

// The kind of a complete formula.
#[derive(Clone, Copy)]
pub enum Complete {
    Buchi,
    Rabin,
    Streett,
    True,
    False,
}

// A word to a formula.
fn word_piece(w: Word) -> Piece
    ensures { result ≡ word_piece w }
{
    match w {
        Word::True => Piece::Truth(true),
        Word::False => Piece::Truth(false),
        Word::Inf => Piece::Inf,
        Word::Fin => Piece::Fin,
        Word::V1 | Word::Other => Piece::Name,
    }
}

// A mark of one byte to a formula.
fn sign_piece(s: Sign) -> Piece
    ensures { result ≡ sign_piece s }
{
    match s {
        Sign::ParenLeft => Piece::Left,
        Sign::ParenRight => Piece::Right,
        Sign::And => Piece::And,
        Sign::Or => Piece::Or,
        Sign::Not => Piece::Not,
        _ => Piece::Foreign,
    }
}

// A token to a formula.
fn piece_of(k: Kind) -> Piece
    ensures { result ≡ kind_piece k }
{
    match k {
        Kind::Int(n) => Piece::Number(n),
        Kind::Word(w) => word_piece(w),
        Kind::Sign(s) => sign_piece(s),
        Kind::Abort => Piece::Abort,
        _ => Piece::Foreign,
    }
}

// The kind of formula that is complete behind an operand, with no open bracket.
fn kind_complete(p: Past) -> Option<Complete>
    ensures { result ≡ complete_to p }
{
    match p {
        Past::Truth {
            value: true,
            depth: 0,
        } => Some(Complete::True),
        Past::Truth {
            value: false,
            depth: 0,
        } => Some(Complete::False),
        Past::Buchi(0) => Some(Complete::Buchi),
        Past::FirstFin(0) | Past::RabinGroup(0) => Some(Complete::Rabin),
        Past::RabinPair {
            whole: 0,
            inner: 0,
            ..
        } => Some(Complete::Rabin),
        Past::StreettPair(0) | Past::Bare(0) => Some(Complete::Streett),
        _ => None,
    }
}

// A standard formula that needs nothing.
fn standard(condition: Acceptance, next: usize) -> FormulaRead
    ensures { result ≡ standard_read condition next }
{
    FormulaRead::Standard {
        condition,
        needs: [0; 8],
        next,
    }
}

// The answer for a complete formula.
fn read_complete(c: u32, n: Needs, next: usize, k: Complete) -> FormulaRead
    ensures { result ≡ complete_read c n next k }
{
    let Needs { pairs, needs } = n;
    match k {
        Complete::Buchi => standard(Acceptance::Buchi(c), next),
        Complete::Rabin => FormulaRead::Standard {
            condition: Acceptance::Rabin(pairs),
            needs,
            next,
        },
        Complete::Streett => standard(Acceptance::Streett(c / 2), next),
        Complete::True => standard(Acceptance::Buchi(0), next),
        Complete::False => standard(Acceptance::Rabin(0), next),
    }
}

// The answer where the formula is over.
fn over(c: u32, atoms: u32, n: Needs, next: usize, stage: Stage) -> FormulaRead
    ensures { result ≡ over_read c atoms n next stage }
{
    match stage {
        Stage::After(p) if c <= atoms => match kind_complete(p) {
            Some(k) => read_complete(c, n, next, k),
            None => FormulaRead::Short { next },
        },
        _ => FormulaRead::Short { next },
    }
}

// The formula with c marks that begins at a place: its condition and needs, or that it is short; or where it is refused.
pub fn read_formula(text: &[u8], at: usize, c: u32) -> Result<FormulaRead, BadToken>
    ensures { FormulaAt text.now at c result }
{
    let mut formula = Formula {
        depth: 0,
        atoms: 0,
        stage: Stage::Operand(Ahead::Start(0)),
    };
    let mut needs = Needs {
        pairs: 0,
        needs: [0; 8],
    };
    let mut here = at;
    loop {
        let token = token_at(text, here);
        let p = piece_of(token.kind);
        match step(c, formula, p, needs.pairs, here) {
            Turn::Go(f) => {
                needs = counted(needs, c, formula.atoms, formula.stage, p);
                formula = f;
                here = token.next;
            }
            Turn::Over => return Ok(over(c, formula.atoms, needs, here, formula.stage)),
            Turn::Wrong(number) => {
                return Err(BadToken {
                    number,
                    place: token.first,
                });
            }
        }
    }
}
