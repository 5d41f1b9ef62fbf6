ghost use Rattle.std.specs.Prelude.{◌≡◌, ◌≤◌, ◌↔◌, IsTrue, ℕ, Some, None, map, string_bytes, OnOk, OnErr};
ghost use Rattle.std.specs.FinMap as finite;
ghost use Rattle.mpc_base.specs.Causes.{Rose};
ghost use Rattle.mpc_base.specs.FailLists.{fails_now, failed_so_far, counted};
ghost use Rattle.mpc_base.specs.FileAnswers.{ReadsFile, Writes};
ghost use Rattle.mpc_base.specs.Told.{content_of};

use crate::fail_list::FailList;
use crate::file_store::{Files, ReadAnswer, WriteAnswer};
use std::alloc::{AllocError, Global};
use std::collections::BTreeMap;
use std::marker::Model;

/// A store in memory that tells its files. The calls whose numbers are listed fail, and no others.
#[derive(Drop)]
pub struct MemFiles {
    files: BTreeMap<String, Vec<u8>>,
    fails: FailList,
}

impl Model for MemFiles {
    ghost use Rattle.mpc_base.specs.MemFilesSeen.{MemFilesSeen};
    ghost use Rattle.mpc_base.specs.Told.{Store};
    ghost use Rattle.mpc_base.specs.FailLists.{FailsAt};
    ghost use Rattle.std.specs.FinMap as finite;
    ghost use Rattle.std.specs.Coded.{code_by, coded_ℕ, coded_list, coded×};
    ghost use Rattle.std.specs.Prelude.{List, ℕ, refl};

    ghost Value = { MemFilesSeen };

    ghost coded = { code_by (Store × (List ℕ × ℕ)) (coded× (finite.code (coded_list coded_ℕ) (coded_list coded_ℕ)) (coded× (coded_list coded_ℕ) coded_ℕ)) (λ f. (f.store, (f.fails.listed, f.fails.calls))) (λ p. record { store = p.0; fails = record { listed = p.1.0; calls = p.1.1 } }) (λ _. refl) };

    ghost use Rattle.mpc_base.specs.MemFilesKept.{seen_of};

    ghost view = { seen_of };
}

impl MemFiles {
    /// A store with these files, of whose calls those with a number in `fails`, counted from 0, fail.
    pub fn new(files: BTreeMap<String, Vec<u8>>, fails: Vec<u64>) -> MemFiles
        ensures store { result.store ≡ finite.from_entries (map (λ e. (string_bytes e.0, e.1.items)) files.entries) }
        ensures fails { result.fails ≡ record { listed = fails.items; calls = 0 } }
    {
        MemFiles {
            files,
            fails: FailList::new(fails),
        }
    }

    fn content(&self, alloc: Global, name: &str, limit: usize) -> ReadAnswer
        ensures content { ReadsFile (content_of self.now.store name.now) limit result }
        ensures answers { result ≡ ReadAnswer.Failed → ⊥ }
    {
        let Some(content) = self.files.get(name) else {
            return ReadAnswer::Missing;
        };
        if content.len() > limit {
            return ReadAnswer::TooLong;
        }
        match Vec::from_slice(alloc, content.as_slice()) {
            Ok(bytes) => ReadAnswer::Bytes(bytes),
            Err(_) => ReadAnswer::Memory,
        }
    }

    fn put(&mut self, alloc: Global, name: &str, bytes: &[u8]) -> Result<(), AllocError>
        ensures ok { OnOk result (self.new.store ≡ finite.insert self.old.store name.now bytes.now) }
        ensures err { OnErr result (self.new.store ≡ self.old.store) }
        ensures fails { self.new.fails ≡ self.old.fails }
    {
        let name = String::from_str(alloc, name)?;
        let content = Vec::from_slice(alloc, bytes)?;
        self.files.insert(name, content)?;
        Ok(())
    }
}

impl Files for MemFiles {
    ghost told = { λ f. Some f.store };

    ghost faults = { λ f. failed_so_far f.fails };

    fn read(&mut self, alloc: Global, name: &str, limit: usize) -> ReadAnswer
        ensures kept { Some self.new.store ≡ Some self.old.store }
        ensures later { failed_so_far self.old.fails ≤ failed_so_far self.new.fails }
        ensures failed { (result ≡ ReadAnswer.Failed) ↔ Rose (failed_so_far self.old.fails) (failed_so_far self.new.fails) }
        ensures content { ReadsFile (content_of self.old.store name.now) limit result }
        ensures listed { (result ≡ ReadAnswer.Failed) ↔ IsTrue (fails_now self.old.fails) }
        ensures counts { self.new.fails ≡ counted self.old.fails }
    {
        if self.fails.next() {
            return ReadAnswer::Failed;
        }
        self.content(alloc, name, limit)
    }

    fn write(&mut self, alloc: Global, name: &str, bytes: &[u8]) -> WriteAnswer
        ensures later { failed_so_far self.old.fails ≤ failed_so_far self.new.fails }
        ensures failed { (result ≡ WriteAnswer.Failed) ↔ Rose (failed_so_far self.old.fails) (failed_so_far self.new.fails) }
        ensures content { Writes (Some self.old.store) (Some self.new.store) name.now bytes.now result }
        ensures listed { (result ≡ WriteAnswer.Failed) ↔ IsTrue (fails_now self.old.fails) }
        ensures counts { self.new.fails ≡ counted self.old.fails }
    {
        if self.fails.next() {
            return WriteAnswer::Failed;
        }
        match self.put(alloc, name, bytes) {
            Ok(()) => WriteAnswer::Written,
            Err(_) => WriteAnswer::Memory,
        }
    }
}
