// Why bytes are no world.
ghost use Rattle.std.specs.Prelude.{◌≡◌, Some};
ghost use Rattle.iam_world.specs.WorldFault.{world_number_of, world_name_of, world_text};
ghost use Rattle.iam_world.specs.declared.fault.WorldFault.TheVariants as w;
ghost use Rattle.iam_world.specs.Code.ViewFault.{shape_fault, part_fault};

use iam_context::ContextFault;
use iam_policy::Refused;
use iam_shape::{Path, ShapeFault};
use iam_text::OutOfMemory;
use iam_world_context::PartFault;
use std::alloc::AllocFailed;
use std::fmt::{self, Display, Formatter, Write};
use thiserror::Error;

/// Why bytes are no world. A document with several faults is refused by the first: `TooLarge` for its bytes, then by
/// number, each at its first place, then `TooLarge` for its cells or statements.
#[derive(Clone, Copy, Debug, PartialEq, Eq, Error)]
pub enum WorldFault {
    /// 1: The bytes are no JSON text that `serde_json` reads.
    NotJson,
    /// 2: At this path stands a value of the wrong form, a member is absent, or the object has an unknown member.
    BadShape(Path),
    /// 3: The `user` or `role` of the principal at this path is no such ARN, or its `session` is no session's name.
    BadRequester(Path),
    /// 4: The text at this path is no action, `prefix:name`.
    BadAction(Path),
    /// 5: The `arn` of the resource at this path is neither `*` nor an ARN.
    BadResourceArn(Path),
    /// 6: The account of the principal or resource at this path is none of the world's.
    UnknownAccount(Path),
    /// 7: The context at this path gives a key twice, or one that is derived.
    Context(Path, ContextFault),
    /// 8: The policy document at this path is refused.
    Policy(Path, Refused),
    /// 9: Over 8,388,608 bytes, over 16,777,216 cells or over 4,096 statements.
    TooLarge,
    /// 10: The allocator refused a growth.
    OutOfMemory,
}

impl WorldFault {
    /// The number of the fault.
    pub fn number(&self) -> u32
        ensures { result ≡ world_number_of self.now }
    {
        match self {
            WorldFault::NotJson => 1,
            WorldFault::BadShape(_) => 2,
            WorldFault::BadRequester(_) => 3,
            WorldFault::BadAction(_) => 4,
            WorldFault::BadResourceArn(_) => 5,
            WorldFault::UnknownAccount(_) => 6,
            WorldFault::Context(_, _) => 7,
            WorldFault::Policy(_, _) => 8,
            WorldFault::TooLarge => 9,
            WorldFault::OutOfMemory => 10,
        }
    }

    /// The name of the fault, as it is declared.
    pub fn name(&self) -> &'static str
        ensures { result.now ≡ world_name_of self.now }
    {
        match self {
            WorldFault::NotJson => "NotJson",
            WorldFault::BadShape(_) => "BadShape",
            WorldFault::BadRequester(_) => "BadRequester",
            WorldFault::BadAction(_) => "BadAction",
            WorldFault::BadResourceArn(_) => "BadResourceArn",
            WorldFault::UnknownAccount(_) => "UnknownAccount",
            WorldFault::Context(_, _) => "Context",
            WorldFault::Policy(_, _) => "Policy",
            WorldFault::TooLarge => "TooLarge",
            WorldFault::OutOfMemory => "OutOfMemory",
        }
    }
}

impl Display for WorldFault {
    ghost output = { λ fault. Some (world_text fault) };

    fn fmt<W: Write>(&self, f: &mut Formatter<W>) -> Result<(), fmt::Error> {
        let number = self.number();
        let name = self.name();
        match self {
            WorldFault::BadShape(path)
            | WorldFault::BadRequester(path)
            | WorldFault::BadAction(path)
            | WorldFault::BadResourceArn(path)
            | WorldFault::UnknownAccount(path) => write!(f, "{number} {name} at {path}"),
            WorldFault::Context(path, fault) => write!(f, "{number} {name} at {path}: {fault}"),
            WorldFault::Policy(path, refused) => write!(f, "{number} {name} at {path}: {refused}"),
            WorldFault::NotJson | WorldFault::TooLarge | WorldFault::OutOfMemory => {
                write!(f, "{number} {name}")
            }
        }
    }
}

impl From<OutOfMemory> for WorldFault {
    ghost from_gives = { λ _ fault. fault ≡ w.OutOfMemory };

    fn from(_: OutOfMemory) -> WorldFault {
        WorldFault::OutOfMemory
    }
}

impl<T: Drop> From<AllocFailed<T>> for WorldFault {
    ghost from_gives = { λ _ fault. fault ≡ w.OutOfMemory };

    fn from(_: AllocFailed<T>) -> WorldFault {
        WorldFault::OutOfMemory
    }
}

impl From<ShapeFault> for WorldFault {
    ghost from_gives = { λ fault world. world ≡ shape_fault fault };

    fn from(fault: ShapeFault) -> WorldFault {
        match fault {
            ShapeFault::At(path) => WorldFault::BadShape(path),
            ShapeFault::OutOfMemory => WorldFault::OutOfMemory,
        }
    }
}

impl From<PartFault> for WorldFault {
    ghost from_gives = { λ fault world. world ≡ part_fault fault };

    fn from(fault: PartFault) -> WorldFault {
        match fault {
            PartFault::At(path, found) => WorldFault::Context(path, found),
            PartFault::OutOfMemory => WorldFault::OutOfMemory,
        }
    }
}
