ghost use Rattle.std.specs.Prelude.{ℕ, Option, Result};
ghost use Rattle.wire.specs.declared.fault.Fault.{Fault};
ghost use Rattle.wire.specs.declared.message.Message.{Message};

/// The choice that a link makes, which its meaning leaves open. Boards and kits are proved for every choice; a layer names that of the link below.
pub trait Choice {
    ghost joins: { Self → Message → Result (Unit {0}) Fault → Self → Type 0 };

    ghost chooses: { Self → ℕ → Option Message → Self → Type 0 };
}
