// What a keyword makes of a line's memory and of what its condition gave.
ghost use Rattle.std.specs.Prelude.{◌≡◌, true};
ghost use Rattle.engine.specs.Keyword.{tries, acts, remembers};

use tokens::token::{EVERY, FROM, WHEN, WHENEVER};

// Whether a line works its condition: a WHEN or FROM line that has acted does not.
#[tactic(auto, unfolding(crate::specs::Keyword::tries))]
pub fn tries_now(keyword: u32, memory: bool) -> bool
    ensures { result ≡ tries keyword memory }
{
    match keyword {
        WHEN | FROM => !memory,
        WHENEVER | EVERY => true,
        _ => false,
    }
}

// Whether a line acts, where v is what its condition gave.
#[tactic(auto, unfolding(crate::specs::Keyword::acts))]
pub fn acts_now(keyword: u32, memory: bool, v: bool) -> bool
    ensures { result ≡ acts keyword memory v }
{
    match keyword {
        WHENEVER => v,
        WHEN | EVERY => v && !memory,
        FROM => v || memory,
        _ => true,
    }
}

// What is remembered of a condition that was worked.
#[tactic(auto, unfolding(crate::specs::Keyword::remembers))]
pub fn remembers_now(keyword: u32, memory: bool, v: bool) -> bool
    ensures { result ≡ remembers keyword memory v }
{
    match keyword {
        WHEN | FROM => memory || v,
        EVERY => v,
        _ => memory,
    }
}
