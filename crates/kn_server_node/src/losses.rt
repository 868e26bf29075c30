ghost use Rattle.std.specs.Prelude.{◌≡◌, [], ◌∷◌, ◌++◌, MatchOption, OnOk, OnErr};
ghost use Rattle.kn_ends.specs.Queues.{is_empty};
ghost use Rattle.kn_server_node.specs.Losing.{is_before, with_loss};

use crate::loss::Loss;
use kn_io::NoMemory;
use std::alloc::Global;
use std::collections::VecDeque;
use std::marker::Model;
use std::mem;

/// Losses that are to follow, the next one in front. Contracts see the list.
#[derive(Drop)]
pub struct Losses {
    inner: VecDeque<Loss>,
}

impl Model for Losses {
    ghost use Rattle.std.specs.Prelude.{List};
    ghost use Rattle.kn_server_node.specs.declared.loss.Loss.{Loss};

    ghost Value = { List Loss };

    ghost view = { λ q. q.inner.items };
}

impl Losses {
    /// None. Takes no memory.
    pub fn new(alloc: Global) -> Losses
        ensures { result ≡ [] }
    {
        Losses {
            inner: VecDeque::new(alloc),
        }
    }

    /// Puts one in front. An `Err` changes nothing.
    pub fn push_front(&mut self, loss: Loss) -> Result<(), NoMemory>
        ensures ok { OnOk result (self.new ≡ loss ∷ self.old) }
        ensures err { OnErr result (self.new ≡ self.old) }
    {
        self.inner.push_front(loss)?;
        Ok(())
    }

    /// Takes the first.
    pub fn pop(&mut self) -> Option<Loss>
        ensures { MatchOption result ((self.old ≡ []) × (self.new ≡ [])) (λ loss. self.old ≡ loss ∷ self.new) }
    {
        self.inner.pop_front()
    }

    pub fn is_empty(&self) -> bool
        ensures { result ≡ is_empty self.now }
    {
        match self.inner.front() {
            Some(_first) => false,
            None => true,
        }
    }

    /// Puts one in its place: links before fronts, each by rising number, and each once.
    pub fn insert(&mut self, loss: Loss) -> Result<(), NoMemory>
        ensures { OnOk result (self.new ≡ with_loss loss self.old) }
    {
        insert_in(&mut self.inner, loss)
    }

    /// Takes all out.
    pub fn take(&mut self, alloc: Global) -> Losses
        ensures taken { result ≡ self.old }
        ensures left { self.new ≡ [] }
    {
        mem::replace(self, Losses::new(alloc))
    }

    /// Puts all of these behind.
    pub fn append(&mut self, later: Losses) -> Result<(), NoMemory>
        ensures { OnOk result (self.new ≡ self.old ++ later) }
    {
        append_all(&mut self.inner, later.inner)
    }
}

fn append_all(inner: &mut VecDeque<Loss>, later: VecDeque<Loss>) -> Result<(), NoMemory>
    ensures { OnOk result (inner.new.items ≡ inner.old.items ++ later.items) }
{
    for loss in later {
        inner.push_back(loss)?;
    }
    Ok(())
}

/// Links come before fronts, and each by rising number.
fn is_before(loss: Loss, other: Loss) -> bool
    ensures { result ≡ is_before loss other }
{
    match (loss, other) {
        (Loss::OfLink { link, .. }, Loss::OfLink { link: next, .. }) => link < next,
        (Loss::OfLink { .. }, Loss::OfFront { .. }) => true,
        (Loss::OfFront { .. }, Loss::OfLink { .. }) => false,
        (Loss::OfFront { front, .. }, Loss::OfFront { front: next, .. }) => front < next,
    }
}

fn insert_in(inner: &mut VecDeque<Loss>, loss: Loss) -> Result<(), NoMemory>
    ensures { OnOk result (inner.new.items ≡ with_loss loss inner.old.items) }
{
    let Some(first) = inner.pop_front() else {
        inner.push_front(loss)?;
        return Ok(());
    };
    if is_before(loss, first) {
        inner.push_front(first)?;
        inner.push_front(loss)?;
        Ok(())
    } else if is_before(first, loss) {
        insert_in(inner, loss)?;
        inner.push_front(first)?;
        Ok(())
    } else {
        inner.push_front(first)?;
        Ok(())
    }
}
