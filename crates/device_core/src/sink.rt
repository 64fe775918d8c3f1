ghost use Rattle.std.specs.Prelude.{◌≡◌, ◌++◌, ◌∷◌, [], List, ℕ};

use frame_codec::Frame;

/// The destination of a device's frames. It accepts every frame.
pub trait Sink {
    /// The frames that it has accepted, in order.
    ghost taken: { Self → List (List ℕ) };

    /// Accepts a frame.
    fn take(&mut self, frame: &Frame)
        ensures { taken self.new ≡ taken self.old ++ frame.now.items ∷ [] };
}
