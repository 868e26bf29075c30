ghost use Rattle.std.specs.Prelude.{◌≡◌, ◌+◌, ◌<◌, ◌≤◌, ◌^◌, [], ◌∷◌, Some, None, true, false, length, OnOk, OnErr, MatchOption, IfSome};
ghost use Rattle.std.specs.Option.{IsSomeAnd};
ghost use Rattle.kn_tables.specs.Lists.{first_where, AreAbove};
ghost use Rattle.kn_edge_core.specs.ClientTables.{is_app, app_at, is_open_at, is_held_at, is_held, with_app, without_app, app_changed, opened, closing, lingering, with_more, with_fewer};

use crate::app::{App, AppState};
use crate::app_changes::{count_fewer, count_more, mark_closing, mark_lingering, mark_open};
use crate::ids::{first_under, forget, forget_held, forget_open, note};
use kn_io::{NoMemory, Text};
use std::alloc::Global;
use std::collections::BTreeMap;
use std::marker::Model;

/// The apps of a client. Contracts see the list of them by rising number. Each call takes a time that is
/// logarithmic in the number of apps.
#[derive(Drop)]
pub struct Apps {
    by_number: BTreeMap<u64, App>,
    open_by_id: BTreeMap<(i64, u64), u64>,
    held_by_id: BTreeMap<(i64, u64), u64>,
}

impl Model for Apps {
    ghost use Rattle.std.specs.Prelude.{List};
    ghost use Rattle.kn_edge_core.specs.declared.app.App.{App};

    ghost Value = { List App };

    ghost use Rattle.kn_edge_core.specs.Keeping.{app_rows, AppsAreKept};

    ghost view = { app_rows };

    ghost invariant = { AppsAreKept };
}

impl Apps {
    /// No app. Takes no memory.
    pub fn new(alloc: Global) -> Apps
        ensures { result ≡ [] }
    {
        Apps {
            by_number: BTreeMap::new(alloc),
            open_by_id: BTreeMap::new(alloc),
            held_by_id: BTreeMap::new(alloc),
        }
    }

    /// Adds an app of a new number that is neither open nor closing. An `Err` changes nothing.
    pub fn insert(&mut self, app: App) -> Result<(), NoMemory>
        requires new_number { first_where (is_app app.number) self.old ≡ None }
        requires idle { is_held app.state ≡ false }
        ensures ok { OnOk result (self.new ≡ with_app app self.old) }
        ensures err { OnErr result (self.new ≡ self.old) }
    {
        self.by_number.insert(app.number, app)?;
        Ok(())
    }

    /// The app of a number.
    pub fn find(&self, number: u64) -> Option<&App>
        ensures found { MatchOption result (first_where (is_app number) self.now ≡ None) (λ a. first_where (is_app number) self.now ≡ Some a.now) }
        ensures stands { IfSome result (λ a. first_where (is_app a.now.number) self.now ≡ Some a.now) }
    {
        match self.by_number.get(&number) {
            Some(app) => Some(app),
            None => None,
        }
    }

    /// The app whose number a reply names.
    pub fn find_random(&self, random: &i64) -> Option<&App>
        ensures found { MatchOption result (app_at random.now self.now ≡ None) (λ a. app_at random.now self.now ≡ Some a.now) }
        ensures stands { IfSome result (λ a. first_where (is_app a.now.number) self.now ≡ Some a.now) }
    {
        if *random < 0 {
            None
        } else {
            self.find(*random as u64)
        }
    }

    /// The app of the least number that takes data of a connectID.
    pub fn first_open(&self, connect_id: &i64) -> Option<&App>
        ensures found { MatchOption result (first_where (is_open_at connect_id.now) self.now ≡ None) (λ a. first_where (is_open_at connect_id.now) self.now ≡ Some a.now) }
        ensures stands { IfSome result (λ a. first_where (is_app a.now.number) self.now ≡ Some a.now) }
    {
        match first_under(&self.open_by_id, connect_id) {
            Some(number) => self.find(number),
            None => None,
        }
    }

    /// The app of the least number that a close of a connectID is for.
    pub fn first_held(&self, connect_id: &i64) -> Option<&App>
        ensures found { MatchOption result (first_where (is_held_at connect_id.now) self.now ≡ None) (λ a. first_where (is_held_at connect_id.now) self.now ≡ Some a.now) }
        ensures stands { IfSome result (λ a. first_where (is_app a.now.number) self.now ≡ Some a.now) }
    {
        match first_under(&self.held_by_id, connect_id) {
            Some(number) => self.find(number),
            None => None,
        }
    }

    /// The tunnel of an app that dials is open. An `Err` changes nothing.
    pub fn open(&mut self, number: u64, connect_id: &i64) -> Result<(), NoMemory>
        requires { IsSomeAnd (first_where (is_app number) self.old) (λ a. a.state ≡ AppState.Dialling) }
        ensures ok { OnOk result (self.new ≡ app_changed number (opened connect_id.now) self.old) }
        ensures err { OnErr result (self.new ≡ self.old) }
    {
        note(&mut self.open_by_id, connect_id, number)?;
        match note(&mut self.held_by_id, connect_id, number) {
            Ok(_) => {}
            Err(_) => {
                forget(&mut self.open_by_id, connect_id, number);
                return Err(NoMemory);
            }
        }
        mark_open(&mut self.by_number, number, connect_id);
        Ok(())
    }

    /// An app whose tunnel is open asked to close it. Takes no memory.
    pub fn close(&mut self, number: u64, connect_id: &i64)
        requires { IsSomeAnd (first_where (is_app number) self.old) (λ a. (a.state ≡ AppState.Open) × (a.connect_id ≡ connect_id.now)) }
        ensures { self.new ≡ app_changed number closing self.old }
    {
        forget(&mut self.open_by_id, connect_id, number);
        mark_closing(&mut self.by_number, number);
    }

    /// The tunnel of an app is over, and bytes are still to be written to it. Takes no memory.
    pub fn linger(&mut self, number: u64, state: AppState, connect_id: &i64, error: Text)
        requires { IsSomeAnd (first_where (is_app number) self.old) (λ a. (a.state ≡ state) × (a.connect_id ≡ connect_id.now)) }
        ensures { self.new ≡ app_changed number (lingering error) self.old }
    {
        forget_open(&mut self.open_by_id, state, connect_id, number);
        forget_held(&mut self.held_by_id, state, connect_id, number);
        mark_lingering(&mut self.by_number, number, error);
    }

    /// So many bytes more are to be written. Takes no memory.
    pub fn add_unwritten(&mut self, number: u64, count: usize)
        requires { IsSomeAnd (first_where (is_app number) self.old) (λ a. a.unwritten + count < 2 ^ 64) }
        ensures { self.new ≡ app_changed number (with_more count) self.old }
    {
        count_more(&mut self.by_number, number, count);
    }

    /// So many bytes were written. Takes no memory.
    pub fn take_unwritten(&mut self, number: u64, count: usize)
        requires { IsSomeAnd (first_where (is_app number) self.old) (λ a. count ≤ a.unwritten) }
        ensures { self.new ≡ app_changed number (with_fewer count) self.old }
    {
        count_fewer(&mut self.by_number, number, count);
    }

    /// Takes the app of a number out. Takes no memory.
    pub fn remove(&mut self, number: u64) -> Option<App>
        ensures found { result ≡ first_where (is_app number) self.old }
        ensures left { self.new ≡ without_app number self.old }
    {
        match self.by_number.remove(&number) {
            Some(app) => {
                forget_open(&mut self.open_by_id, app.state, &app.connect_id, app.number);
                forget_held(&mut self.held_by_id, app.state, &app.connect_id, app.number);
                Some(app)
            }
            None => None,
        }
    }

    /// Takes the app of the least number out. Takes no memory.
    pub fn take_first(&mut self) -> Option<App>
        ensures first { MatchOption result (self.old ≡ []) (λ a. self.old ≡ a ∷ self.new) }
        ensures rest { MatchOption result (self.new ≡ []) (λ a. AreAbove (λ x. x.number) a.number self.new) }
    {
        match self.by_number.pop_first() {
            Some((_, app)) => {
                forget_open(&mut self.open_by_id, app.state, &app.connect_id, app.number);
                forget_held(&mut self.held_by_id, app.state, &app.connect_id, app.number);
                Some(app)
            }
            None => None,
        }
    }

    /// How many apps there are.
    pub fn len(&self) -> usize
        ensures { result ≡ length self.now }
    {
        self.by_number.len()
    }
}
