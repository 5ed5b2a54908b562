// Interconnection points and descriptors, each held as the number of its bytes in big-endian order, so that
// the order of the numbers is the bytewise order of the texts. The two admit other texts and have numbers of another width:
// what they share is a line or two in each method.
mod descriptors;
mod points;

ghost use Rattle.std.specs.Prelude.{◌≡◌, true};
ghost use Rattle.values.specs.Labels.{is_point_number, is_descriptor_number};

// An interconnection point.
#[derive(Clone, Copy, PartialEq, Eq, PartialOrd, Ord)]
pub struct Point {
    number: u128,
    ghost ok: { is_point_number number ≡ true },
}

// A descriptor of a call.
#[derive(Clone, Copy, PartialEq, Eq, PartialOrd, Ord)]
pub struct Descriptor {
    number: u64,
    ghost ok: { is_descriptor_number number ≡ true },
}
