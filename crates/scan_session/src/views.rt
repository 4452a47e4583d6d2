//! Where newer views may come from.
ghost use Rattle.std.specs.Prelude.{◌≡◌, ℕ, ◌≤◌, Bool, true, false, Option, None, IsOk, IfOk, OnOk, OnErr};
ghost use Rattle.tablet_io.specs.Causes.{Rose};
ghost use Rattle.tablet_view.specs.Snapshot.{Snapshot};
ghost use Rattle.scan_session.specs.Looks.{Found};

use cell_key::NoMemory;
use std::marker::Model;
use std::sync::Arc;
use tablet_view::View;

/// Where newer views may come from.
pub trait Views {
    /// What it belongs to.
    ghost Home: { Type 0 };

    ghost home: { Self → Home };

    /// Whether it looks at views at all.
    ghost looks: { Self → Bool };

    /// Whether its looks take no memory.
    ghost steady: { Self → Bool };

    /// The newest view that it has looked at or been told.
    ghost newest: { Self → Option Snapshot };

    /// How often it was asked.
    ghost questions: { Self → ℕ };

    /// Looks once at the published view, and answers it exactly where its version is greater than `than`. Where it is steady
    /// it takes no memory and succeeds. After `NoMemory` the look counts as not made.
    fn newer(&mut self, than: u64) -> Result<Option<Arc<View>>, NoMemory>
        ensures kept { (home self.new ≡ home self.old) × (looks self.new ≡ looks self.old) }
        ensures steady { steady self.new ≡ steady self.old }
        ensures works { steady self.old ≡ true → IsOk result }
        ensures count { questions self.old ≤ questions self.new }
        ensures rose { OnOk result (Rose (questions self.old) (questions self.new)) }
        ensures failed { OnErr result (newest self.new ≡ newest self.old) }
        ensures blind { looks self.old ≡ false →
            (newest self.new ≡ newest self.old) × IfOk result (λ answer. answer ≡ None) }
        ensures found { looks self.old ≡ true →
            IfOk result (λ answer. (x : Snapshot) × Found (newest self.old) (newest self.new) than answer x) };

    /// One that looks at no view has none.
    ghost blind_has_none: { (s : Self) → looks s ≡ false → newest s ≡ None };
}

/// Looks at no view. Contracts see it as how often it was asked.
#[derive(Drop)]
pub struct Still {
    questions: u64,
}

impl Model for Still {
    ghost use Rattle.std.specs.Prelude.{ℕ};

    ghost Value = { ℕ };

    ghost view = { λ s. s.questions };
}

impl Still {
    /// One that was not asked yet. It takes no memory.
    pub fn new() -> Still
        ensures { result ≡ 0 }
    {
        Still { questions: 0 }
    }
}

impl Views for Still {
    ghost use Rattle.std.proofs.Common.{refl};

    ghost Home = { Unit {0} };

    ghost home = { λ _. tt };

    ghost looks = { λ _. false };

    ghost steady = { λ _. true };

    ghost newest = { λ _. None };

    ghost questions = { λ s. s };

    ghost blind_has_none = { λ s e. refl };

    fn newer(&mut self, _than: u64) -> Result<Option<Arc<View>>, NoMemory> {
        self.questions = self.questions.saturating_add(1);
        Ok(None)
    }
}
