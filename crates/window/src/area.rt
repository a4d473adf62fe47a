// A closed rectangle by its four sides, none of which lies beyond the map's.
ghost use Rattle.std.specs.Prelude.{◌≤◌};

use definitions::Half;

// stays: beside definitions::Window, whose numbers may be any.
#[derive(Clone, Copy)]
pub struct Area {
    pub west: Half,
    pub south: Half,
    pub east: Half,
    pub north: Half,
    pub ghost west_in_map: { west.0 ≤ 32768 },
    pub ghost south_in_map: { south.0 ≤ 32768 },
    pub ghost east_in_map: { east.0 ≤ 32768 },
    pub ghost north_in_map: { north.0 ≤ 32768 },
}
