// The standard formulas of the Hanoi format (docs/RULES.md, "The Hanoi format"), for the crate `hoa_formula`, and the state of their reader: which kinds of formula
// the tokens so far begin, with counts of open brackets. Relies on nothing. The standard formulas and the admission of a token are in specs/.
// Four machines run side by side (specs/Machines.antt); since the first atoms tell the kinds apart, few states are met together, and each is one case here.
#![tactic(auto)]

ghost use Rattle.std.specs.Prelude.{◌≡◌, ◌<◌};
ghost use Rattle.hoa_standard.specs.inner.Sides.{AheadWithin, opened_to, inf_to, fin_to, truth_to, closed_to, and_to, or_to, first_pair, streett_past, closed_pair};
ghost use Rattle.hoa_standard.specs.inner.Sides.{is_lost_ahead, is_lost_past, bracket_room};

// A token as a formula sees it: brackets, signs, the words it knows, any other word, a number, `--ABORT--`, anything else.
#[derive(Clone, Copy)]
pub enum Piece {
    Left,
    Right,
    And,
    Or,
    Not,
    Inf,
    Fin,
    Truth(bool),
    Name,
    Number(u32),
    Abort,
    Foreign,
}

// Where an operand is expected.
#[derive(Clone, Copy)]
pub enum Ahead {
    // no kind of formula begins so
    Lost,
    // brackets only
    Start(usize),
    // behind the first Fin and a `|`: the brackets open at that `|`, all, those opened since
    FirstOr {
        outer: usize,
        whole: usize,
        inner: usize,
    },
    Buchi(usize),
    RabinFin {
        whole: usize,
        plain: usize,
    },
    RabinInf {
        whole: usize,
        plain: usize,
        inner: usize,
    },
    StreettFin {
        whole: usize,
        plain: usize,
    },
    StreettInf {
        whole: usize,
        inner: usize,
    },
}

// Behind an operand.
#[derive(Clone, Copy)]
pub enum Past {
    Lost,
    Truth {
        value: bool,
        depth: usize,
    },
    Buchi(usize),
    // behind the first Fin, and brackets
    FirstFin(usize),
    RabinPair {
        whole: usize,
        plain: usize,
        inner: usize,
    },
    // behind a bracket that holds a `|`
    RabinGroup(usize),
    StreettFin {
        whole: usize,
        plain: usize,
    },
    StreettInf {
        whole: usize,
        inner: usize,
    },
    StreettPair(usize),
    // behind the Inf of a bare pair
    Bare(usize),
}

// Behind `(`, where no count is above `most`.
pub fn opened(a: Ahead, most: usize) -> Ahead
    requires { AheadWithin most a × (most < bracket_room) }
    ensures { result ≡ opened_to a }
{
    match a {
        Ahead::Lost => Ahead::Lost,
        Ahead::Start(d) => Ahead::Start(d + 1),
        Ahead::FirstOr {
            outer,
            whole,
            inner,
        } => Ahead::FirstOr {
            outer,
            whole: whole + 1,
            inner: inner + 1,
        },
        Ahead::Buchi(d) => Ahead::Buchi(d + 1),
        Ahead::RabinFin { whole, plain } => Ahead::RabinFin {
            whole: whole + 1,
            plain: plain + 1,
        },
        Ahead::RabinInf {
            whole,
            plain,
            inner,
        } => Ahead::RabinInf {
            whole,
            plain,
            inner: inner + 1,
        },
        Ahead::StreettFin { whole, plain } => Ahead::StreettFin {
            whole: whole + 1,
            plain: plain + 1,
        },
        Ahead::StreettInf { whole, inner } => Ahead::StreettInf {
            whole,
            inner: inner + 1,
        },
    }
}

// Behind the word Inf and the first `|`: the Inf of a Streett pair in its bracket, or of a bare pair.
fn first_pair(outer: usize, inner: usize, c: u32) -> Past
    ensures { result ≡ first_pair c outer inner }
{
    match outer {
        0 if c == 2 => Past::Bare(inner),
        1.. if c % 2 == 0 => Past::StreettInf {
            whole: outer - 1,
            inner,
        },
        _ => Past::Lost,
    }
}

// Behind the word Inf, in a formula with c marks.
pub fn begun_inf(a: Ahead, c: u32) -> Past
    ensures { result ≡ inf_to c a }
{
    match a {
        Ahead::Start(d) | Ahead::Buchi(d) => Past::Buchi(d),
        Ahead::FirstOr { outer, inner, .. } => first_pair(outer, inner, c),
        Ahead::RabinInf {
            whole,
            plain,
            inner,
        } => Past::RabinPair {
            whole,
            plain,
            inner,
        },
        Ahead::StreettInf { whole, inner } => Past::StreettInf { whole, inner },
        Ahead::Lost | Ahead::RabinFin { .. } | Ahead::StreettFin { .. } => Past::Lost,
    }
}

// A Streett pair's Fin, which stands in a bracket.
fn streett_fin(whole: usize, plain: usize) -> Past
    ensures { result ≡ streett_past whole plain }
{
    if whole == 0 || plain == 0 {
        Past::Lost
    } else {
        Past::StreettFin {
            whole: whole - 1,
            plain: plain - 1,
        }
    }
}

// Behind the word Fin.
pub fn begun_fin(a: Ahead) -> Past
    ensures { result ≡ fin_to a }
{
    match a {
        Ahead::Start(d) => Past::FirstFin(d),
        Ahead::FirstOr { whole, inner, .. } => Past::RabinPair {
            whole,
            plain: inner,
            inner: 0,
        },
        Ahead::RabinFin { whole, plain } => Past::RabinPair {
            whole,
            plain,
            inner: 0,
        },
        Ahead::StreettFin { whole, plain } => streett_fin(whole, plain),
        Ahead::Lost | Ahead::Buchi(_) | Ahead::RabinInf { .. } | Ahead::StreettInf { .. } => {
            Past::Lost
        }
    }
}

// Behind a truth value, in a formula with c marks.
pub fn begun_truth(a: Ahead, c: u32, value: bool) -> Past
    ensures { result ≡ truth_to c value a }
{
    match a {
        Ahead::Start(depth) if c == 0 => Past::Truth { value, depth },
        _ => Past::Lost,
    }
}

// A bracket is closed behind a part of a Rabin pair.
fn closed_pair(whole: usize, plain: usize, inner: usize) -> Past
    ensures { result ≡ closed_pair whole plain inner }
{
    match (whole, plain, inner) {
        (_, _, 1..) => Past::RabinPair {
            whole,
            plain,
            inner: inner - 1,
        },
        (0, _, 0) => Past::Lost,
        (_, 0, 0) => Past::RabinGroup(whole - 1),
        (_, _, 0) => Past::RabinPair {
            whole: whole - 1,
            plain: plain - 1,
            inner: 0,
        },
    }
}

// Behind `)`, where a bracket is open: it is one of those that are counted last.
pub fn closed(p: Past) -> Past
    ensures { result ≡ closed_to p }
{
    match p {
        Past::Lost
        | Past::Truth { depth: 0, .. }
        | Past::Buchi(0)
        | Past::FirstFin(0)
        | Past::RabinGroup(0)
        | Past::StreettPair(0)
        | Past::Bare(0) => Past::Lost,
        Past::Truth { value, depth } => Past::Truth {
            value,
            depth: depth - 1,
        },
        Past::Buchi(d) => Past::Buchi(d - 1),
        Past::FirstFin(d) => Past::FirstFin(d - 1),
        Past::RabinPair {
            whole,
            plain,
            inner,
        } => closed_pair(whole, plain, inner),
        Past::RabinGroup(d) => Past::RabinGroup(d - 1),
        Past::StreettFin { whole, plain } => streett_fin(whole, plain),
        // the pair's own bracket, or one around the Inf
        Past::StreettInf { whole, inner: 0 } => Past::StreettPair(whole),
        Past::StreettInf { whole, inner } => Past::StreettInf {
            whole,
            inner: inner - 1,
        },
        Past::StreettPair(d) => Past::StreettPair(d - 1),
        Past::Bare(d) => Past::Bare(d - 1),
    }
}

// Behind `&`.
pub fn joined_and(p: Past) -> Ahead
    ensures { result ≡ and_to p }
{
    match p {
        Past::Buchi(d) => Ahead::Buchi(d),
        Past::FirstFin(d) => Ahead::RabinInf {
            whole: d,
            plain: d,
            inner: 0,
        },
        Past::RabinPair {
            whole,
            plain,
            inner,
        } => Ahead::RabinInf {
            whole,
            plain,
            inner,
        },
        Past::StreettPair(d) => Ahead::StreettFin { whole: d, plain: 0 },
        _ => Ahead::Lost,
    }
}

// Behind `|`.
pub fn joined_or(p: Past) -> Ahead
    ensures { result ≡ or_to p }
{
    match p {
        Past::FirstFin(d) => Ahead::FirstOr {
            outer: d,
            whole: d,
            inner: 0,
        },
        Past::RabinPair {
            whole,
            inner: 0,
            ..
        } => Ahead::RabinFin { whole, plain: 0 },
        Past::RabinGroup(d) => Ahead::RabinFin { whole: d, plain: 0 },
        Past::StreettFin { whole, .. } => Ahead::StreettInf { whole, inner: 0 },
        _ => Ahead::Lost,
    }
}

// Whether no kind of formula begins so.
pub fn lost_ahead(a: Ahead) -> bool
    ensures { result ≡ is_lost_ahead a }
{
    matches!(a, Ahead::Lost)
}

pub fn lost_past(p: Past) -> bool
    ensures { result ≡ is_lost_past p }
{
    matches!(p, Past::Lost)
}
