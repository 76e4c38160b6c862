//! What events carry.

ghost use Rattle.std.specs.Prelude.{◌≡◌, ◌++◌, OnOk, ℕ, Bool, List, Option};

use ss_wire::Writer;
use std::alloc::AllocError;

/// What an event carries.
pub trait Payload: Copy + Drop {
    /// What a load weighs: whether it is a packet or a credit, its channel and its flits. Other loads weigh nothing.
    ghost weighs: { Self → Option (Bool × ℕ × ℕ) };

    /// The bytes of a load.
    ghost spells: { Self → List ℕ };

    /// `(true, channel, flits)` for a packet, `(false, channel, flits)` for a credit, and `None` for any other load.
    /// It takes no memory.
    fn weight(&self) -> Option<(bool, u8, u32)>
        ensures { result ≡ weighs self.now };

    /// Writes the load. It fails only where no memory is left, and nothing is then known of `out`.
    fn save(&self, out: &mut Writer) -> Result<(), AllocError>
        ensures { OnOk result (out.new ≡ out.old ++ spells self.now) };
}
