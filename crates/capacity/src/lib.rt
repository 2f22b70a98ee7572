// The capacity of a filter, from a table of its value at each number of keys.
#![tactic(auto)]

ghost use Rattle.std.specs.Prelude.{◌≡◌, ◌≤◌};
ghost use Rattle.capacity.specs.Capacity.{Capacity, max_keys};

// A constant u16 table is the form that docs/DECISIONS.md names for the capacities, and tools/capacities writes it.
mod table;

use table::CAPACITIES;
pub use table::MAX_KEYS;

// The most keys: `MAX_KEYS` is the number that the definitions name.
pub fn max_keys() -> u32
    ensures { result ≡ max_keys }
{
    MAX_KEYS
}

// The capacity for n keys.
pub fn capacity(n: u32) -> u32
    requires { n ≤ max_keys }
    ensures { Capacity n result }
{
    u32::from(CAPACITIES[n as usize])
}
