// Items that a list finds by a key.
ghost use Rattle.std.specs.Prelude.{◌≡◌};

pub trait Keyed: Copy {
    // Ordered, as all keys here are; a list compares them by `==` alone.
    type Key: Copy + Ord;

    ghost keys: { Self → Self.Key };

    fn key(&self) -> Self::Key
        ensures { result ≡ keys self.now };
}
