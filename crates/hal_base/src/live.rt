ghost use Rattle.std.specs.Prelude.{◌≡◌, Bool};

/// What may be used no more after a fault of the disk. Its calls that can answer one ask that it is live,
/// and leave it live where they answer anything else.
pub trait Live {
    ghost live: { Self → Bool };

    fn is_live(&self) -> bool
        ensures { result ≡ live self.now };
}
