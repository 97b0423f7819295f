// The ring as an arena. It shares nothing with the arenas of the library, as a buyer's would not.
ghost use Rattle.ring_example.specs.Ring.{ring_game, station};
ghost use Rattle.ring_example.specs.RingBounds.{ring_bounds, ring_elsewhere};
ghost use Rattle.ring_example.specs.Made.{ring_of};

use super::{Ring, Station};
use arena::Arena;
use parity::Player;

impl Ring {
    // A ring of 1 to 65,535 stations.
    pub fn new(stations: usize) -> Option<Ring>
        ensures { ring_of result stations }
    {
        if stations < 1 || stations > 65535 {
            None
        } else {
            Some(Ring { stations })
        }
    }
}

impl Arena for Ring {
    type Place = Station;

    ghost meaning = { λ r. ring_game r.stations };

    ghost places = { λ r v. station r.stations v };

    ghost bounds = { λ r. ring_bounds r.stations r.some r.few };

    ghost elsewhere = { λ r v h. ring_elsewhere r.stations v h };

    fn count(&self) -> usize {
        self.stations
    }

    fn even_side(&self) -> Player {
        Player::One
    }

    fn owner(&self, v: usize) -> Player {
        if v < self.stations && v % 2 == 1 {
            Player::One
        } else {
            Player::Zero
        }
    }

    fn priority(&self, v: usize) -> u16 {
        if v < self.stations { (v % 7) as u16 } else { 0 }
    }

    fn degree(&self, v: usize) -> usize {
        if v < self.stations { 2 } else { 0 }
    }

    fn successor(&self, v: usize, i: usize) -> usize {
        match (v < self.stations, i) {
            (true, 0) if v + 1 < self.stations => v + 1,
            (true, 1) => v,
            _ => 0,
        }
    }

    fn place(&self, v: usize) -> Station {
        Station {
            number: if v < self.stations { v } else { 0 },
        }
    }
}
