// A gate that an entry draws.
ghost use Rattle.std.specs.Prelude.{◌≡◌, length};
ghost use Rattle.steps.specs.Drawable.{Drawable};

use super::Coded;
use map::Gate;
use state::Values;

// An unjustified gate of a configuration, its record read once, beside the marks of the map's codes. (Without `impl Model`: that of a `Copy` type must give its fields back, so contracts would be no shorter.)
#[derive(Clone, Copy, Debug, PartialEq, Eq)]
pub struct Drawn<'a> {
    pub gate: Gate<'a>,
    pub coded: Coded<'a>,
    pub s: Values<'a>,
    pub ghost one_map: { (gate.map.bytes.now ≡ s.map.bytes.now) × (coded.map.bytes.now ≡ s.map.bytes.now) },
    pub ghost sized: { s.map.gates ≡ length s.bytes.now },
    pub ghost drawable: { Drawable s.map.bytes.now s.map.gates s.bytes.now gate.number },
}

impl<'a> Drawn<'a> {
    // Gate g of a configuration s, which is lent for as long as options are sought.
    pub fn of(g: usize, coded: Coded<'a>, s: &'a [u8]) -> Self
        requires { Drawable coded.map.bytes.now coded.map.gates s.now g × (coded.map.gates ≡ length s.now) }
        ensures { (result.s.map ≡ coded.entry.map) × ((result.s.bytes.now ≡ s.entry.now) × (result.gate.number ≡ g)) }
    {
        Drawn {
            gate: coded.map.gate(g),
            coded,
            s: Values {
                map: coded.map,
                bytes: s,
            },
        }
    }
}
