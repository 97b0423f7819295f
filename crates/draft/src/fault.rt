// The fault of a load: what was refused, at which record, and by which layer.
ghost use Rattle.std.specs.Prelude.{◌≡◌};
ghost use Rattle.draft.specs.Layers.{layer_number};

use refusal::Refusal;

// The layer that refused.
#[derive(Clone, Copy, PartialEq, Eq, Debug)]
pub enum Layer {
    // the letters or the length of the file
    File = 1,
    // the bytes of a record
    Record = 2,
    // the call that a record names
    Draft = 3,
}

// The number under which the layer is reported.
impl From<Layer> for u8 {
    ghost from_gives = { λ a r. r ≡ layer_number a };

    fn from(layer: Layer) -> u8 {
        layer as u8
    }
}

// A refusal, with the place of its record, counted from 0, and the layer that refused. A fault of the file as a whole
// has the place 0, as load_file defines it.
#[derive(Clone, Copy, PartialEq, Debug)]
pub struct LoadFault {
    pub refusal: Refusal,
    pub place: usize,
    pub layer: Layer,
}
