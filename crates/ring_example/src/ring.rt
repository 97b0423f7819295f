// A ring of stations. At each the owner keeps the token or hands it to the next station.
ghost use Rattle.std.specs.Prelude.{◌≤◌};

mod answers;

#[derive(Clone, Copy)]
pub struct Ring {
    pub stations: usize,
    ghost some: { 1 ≤ stations },
    ghost few: { stations ≤ 65535 },
}

// What a vertex of a ring stands for.
#[derive(Clone, Copy)]
pub struct Station {
    pub number: usize,
}
