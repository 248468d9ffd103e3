//! Addresses in regions.

ghost use Rattle.std.specs.Prelude.{◌≡◌, ◌<◌, ◌+◌, ◌*◌};
ghost use Rattle.mako_record.specs.Regions.{is_in_region};

use mako_shape::Shape;

/// Whether this index among all words is that of a word of the region.
pub fn is_in_region(shape: &Shape, region: u32, address: u32) -> bool
    requires { region < shape.now.servers * (shape.now.tablets + shape.now.spare) }
    ensures { result ≡ is_in_region shape.now region address }
{
    let words = shape.numbers().words;
    let start = shape.region(region);
    start <= address && address - start < words
}
