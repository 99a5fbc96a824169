//! The machine: what it is, and what it answers to a command.
ghost use Rattle.std.specs.Prelude.{◌≡◌, IfOk, OnOk, OnErr, not, false};
ghost use Rattle.std.specs.Option.{option_map_or};
ghost use Rattle.std.specs.FinMap as fin;
ghost use Rattle.fv_model.specs.Machines.{empty_machine};
ghost use Rattle.fv_model.specs.Refusals.{next};
ghost use Rattle.fv_model.specs.Replies.{Allows, is_open};
ghost use Rattle.fv_model.specs.Machines as machines;
ghost use Rattle.fv_reference.specs.Codes.{machine_code};
ghost use Rattle.fv_laws.specs.Within.{IsWithin};

use crate::aggregates::Aggregate;
use crate::answers::answer;
use crate::effects::effect;
use crate::full::refusal_for_space;
use crate::refusals::refusal_before_space;
use fv_model::{Command, Name, Reply};
use std::alloc::{AllocError, Global};
use std::marker::Model;

/// An aggregate in which no volume uses more than its size.
#[derive(Drop)]
pub struct Machine {
    aggregate: Aggregate,
}

impl Model for Machine {
    ghost Value = { machines.Machine };

    ghost coded = { machine_code };

    ghost view = { λ m. m.aggregate };

    ghost invariant = { λ m. IsWithin m.aggregate };
}

impl Clone for Machine {
    ghost is_clone = { λ x y. y ≡ x };

    fn clone(&self) -> Result<Machine, AllocError> {
        Ok(Machine {
            aggregate: self.aggregate.clone()?,
        })
    }
}

impl Machine {
    /// The machine of so many blocks without a volume. Takes no memory.
    pub fn new(alloc: Global, blocks: u32) -> Machine
        ensures { result ≡ empty_machine blocks }
    {
        Machine {
            aggregate: Aggregate::new(alloc, blocks),
        }
    }

    /// Applies a command and answers its reply.
    ///
    /// The machine afterwards is the one that the definitions give, and the reply one that they allow; a refused command
    /// changes nothing. To `probe` of a volume that isn't known, where any number up to 7 is allowed, it answers 0.
    /// A command that nothing in the machine before it refuses copies the whole machine, and counts anew the volume that it
    /// changes.
    ///
    /// # Errors
    /// `AllocError` where there is no memory for that; the machine then stays as it was.
    #[tactic(auto, using(crate::proofs::Allowed::refused_before, crate::proofs::Allowed::stays_before, crate::proofs::Allowed::refused_for_space, crate::proofs::Allowed::stays_for_space, crate::proofs::Allowed::answered, crate::proofs::Allowed::becomes, crate::proofs::Allowed::still_within))]
    pub fn apply(&mut self, alloc: Global, command: &Command) -> Result<Reply, AllocError>
        ensures reply { IfOk result (Allows self.old command.now) }
        ensures after { OnOk result (self.new ≡ next self.old command.now) }
        ensures err { OnErr result (self.new ≡ self.old) }
    {
        if let Some(refusal) = refusal_before_space(alloc, &self.aggregate, command)? {
            return Ok(Reply::Refused(refusal));
        }
        let after = effect(alloc, &self.aggregate, command)?;
        if let Some(refusal) = refusal_for_space(&after, command) {
            return Ok(Reply::Refused(refusal));
        }
        let reply = answer(alloc, &self.aggregate, command)?;
        self.aggregate = after;
        Ok(reply)
    }

    /// Whether the command is a `probe` of a volume that isn't known: the machine leaves its answer open,
    /// up to 7. Costs a search for the volume, and takes no memory.
    pub fn is_open(&self, command: &Command) -> bool
        ensures { result ≡ is_open self.now command.now }
    {
        match command {
            Command::Probe { volume, .. } => self.is_unknown(volume),
            _ => false,
        }
    }

    fn is_unknown(&self, name: &Name) -> bool
        ensures { result ≡ option_map_or (λ v. not v.known) (fin.get self.now.volumes name.now) false }
    {
        match self.aggregate.volume(name) {
            Some(volume) => !volume.is_known(),
            None => false,
        }
    }
}
