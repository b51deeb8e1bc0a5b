// Levels and climbs: how many levels there are, the number of a state at a level, and where an edge lands. Relies on `marks`.
ghost use Rattle.std.specs.Prelude.{◌≡◌, ◌≤◌, ◌<◌};
ghost use Rattle.marks.specs.Mark.{width};
ghost use Rattle.climbing.specs.Climb.{levels, number, reached, landing, bearing};
ghost use Rattle.climbing.specs.inner.{Ladder};

use marks::Marks;

// What all of a translation goes by: the number of states, the number k of marks and the number K of levels.
#[derive(Clone, Copy)]
pub struct Shape {
    pub states: u32,
    pub k: u32,
    pub levels: u32,
}

// K: k, or 1 if k is 0.
pub fn level_count(k: u32) -> u32
    ensures { result ≡ levels k }
{
    k.max(1)
}

// The level that an edge with these marks reaches from this level, k at most: it climbs as many levels as it bears marks in a row.
fn climb(marks: Marks, level: u32, k: u32) -> u32
    requires { k ≤ width }
    ensures { result ≡ reached k marks level }
{
    if k <= level {
        return level;
    }
    let climbed = (marks >> level).trailing_ones();
    level + climbed.min(k - level)
}

// Where an edge lands: the level at which the translated edge arrives, and the marks that it bears.
#[derive(Clone, Copy)]
pub struct Landing {
    pub level: u32,
    pub marks: Marks,
}

#[tactic(auto, unfolding(crate::specs::Climb::landing, crate::specs::Climb::bearing))]
pub fn land(marks: Marks, level: u32, k: u32) -> Landing
    requires { k ≤ width }
    ensures { (result.level ≡ landing k marks level) × (result.marks ≡ bearing k marks level) }
{
    let reached = climb(marks, level, k);
    if reached < k {
        return Landing {
            level: reached,
            marks: 0,
        };
    }
    Landing { level: 0, marks: 1 }
}

// The number of a state at a level.
pub fn number_of(state: u32, level: u32, shape: Shape) -> u32
    requires ladder { Ladder shape.states shape.k shape.levels }
    requires state_lt_states { (state < shape.states) × (level < shape.levels) }
    ensures { result ≡ number shape.k state level }
{
    state * shape.levels + level
}
