//! The stack machine.
ghost use Rattle.std.specs.Prelude.{◌≡◌, ℕ, List, Ok, OnOk, OnErr, IfOk, IfErr};
ghost use Rattle.std.specs.List.{AllByRecursion};
ghost use Rattle.hol_spec.specs.Derivations.{Derives};
ghost use Rattle.hol_spec.specs.Proofs.{assumptions_of, definitions_of, sequents_of, symbols_of};
ghost use Rattle.hol_spec.specs.declared.Version.TheVariants.{Five, Six};
ghost use Rattle.article_spec.specs.declared.commands.Word.TheVariants as word;
ghost use Rattle.article_spec.specs.Results.{Fails};
ghost use Rattle.article_spec.specs.Run.{accepted, accepted_state, Run};
ghost use Rattle.article_spec.specs.SoundRuns.{IsSoundRun};
ghost use Rattle.article_spec.specs.State.{Stage, initial, last_version, version_at};
ghost use Rattle.article_spec.specs.Step.{finish, in_body, obey, obey_item, step, step_at};
ghost use Rattle.hol_term.specs.Tables.{Trees};
ghost use Rattle.hol_defs.specs.Symbols.{symbols_at, AreKnownSymbols};
ghost use Rattle.stack_machine.specs.Making.{AreSteps};
ghost use Rattle.stack_machine.specs.Obeying.{IsObeyed};
ghost use Rattle.stack_machine.specs.Shown.{place_view};

use crate::object::Object;
use crate::operands::{number_on, object_on};
use crate::remembered::Remembered;
use crate::stack::Stack;
use crate::store::Store;
use crate::{commands, definitions, inference};
use article_spec::{Command, Item, Word};
use common::{Fault, Kind, Memory};
use hol_defs::Symbols;
use hol_rules::{Proof, StepId};
use hol_spec::Version;
use std::alloc::Global;
use std::collections::BTreeMap;
use std::marker::Model;

/// How far an article is.
#[derive(Clone, Copy)]
pub(crate) enum Progress {
    /// No command yet, after an article of this version; before the first article, of version 6.
    Begun(Version),
    /// The number 6 alone, which `version` may follow.
    Numbered,
    /// In its body, in an article of this version.
    Running(Version),
}

impl Progress {
    // The version of the article so far.
    fn version(self) -> Version
        ensures { result ≡ version_at (place_view self) }
    {
        match self {
            Progress::Begun(_) | Progress::Numbered => Version::Five,
            Progress::Running(version) => version,
        }
    }

    // The version of the last article that has begun.
    fn last_version(self) -> Version
        ensures { result ≡ last_version (place_view self) }
    {
        match self {
            Progress::Begun(before) => before,
            Progress::Numbered | Progress::Running(_) => self.version(),
        }
    }
}

/// The stack machine. Contracts see its state: the stack as a list of objects from the top, the dictionary as a
/// finite map, how far the article is, and what the run made.
#[derive(Drop)]
pub struct Machine {
    alloc: Global,
    store: Store,
    // how many names and cells were left when some were last given up
    left: usize,
    stack: Stack,
    dictionary: BTreeMap<i64, Object>,
    // what was put by lists of the store
    remembered: Remembered,
    progress: Progress,
}

impl Model for Machine {
    ghost use Rattle.article_spec.specs.State.{State};
    ghost use Rattle.article_laws.specs.StateLaws.{coded_state};
    ghost use Rattle.stack_machine.specs.Putting.{AreRemembered};
    ghost use Rattle.stack_machine.specs.Stored.{AreKnown};
    ghost use Rattle.stack_machine.specs.Shown.{AreEntriesKnown, article_state, shown};

    ghost Value = { State };

    ghost coded = { coded_state };

    ghost invariant = { λ m. AreKnown m.store m.stack × AreEntriesKnown m.store m.dictionary.entries × AreRemembered m.store m.remembered };

    ghost view = { λ m. shown m.store m.stack (article_state m.store m.dictionary.entries m.progress) };
}

impl Machine {
    /// The machine before the first article.
    pub fn new(alloc: Global) -> Result<Machine, Memory>
        ensures initial { IfOk result (λ machine. machine ≡ initial) }
    {
        Ok(Machine {
            alloc,
            store: Store::new(alloc)?,
            left: 0,
            stack: Stack::new(alloc),
            dictionary: BTreeMap::new(alloc),
            remembered: Remembered::new(alloc),
            progress: Progress::Begun(Version::Six),
        })
    }

    /// Obeys a command (OpenTheory article format, versions 5 and 6, "Commands"). An article is of version 6 where its
    /// first two commands are the number 6 and `version`; another is of version 5, and its first command is one of its
    /// body. A command is refused for the first condition that fails: the place of `version`; the stack, each operand from
    /// the top first there and then of its kind; the dictionary; the command's own conditions; the limits of size, of depth
    /// and of the number of parameters. After a refusal or want of memory the machine is as before.
    pub fn step(&mut self, command: &Command) -> Result<(), Fault>
        ensures taken { OnOk result (step self.old command.now ≡ Ok self.new) }
        ensures refused { IfErr result (λ fault. Fails fault (step self.old command.now)) }
        ensures unchanged { OnErr result (self.new ≡ self.old) }
    {
        match self.progress {
            Progress::Begun(_) => self.begin(&command.item),
            Progress::Numbered => self.second(&command.item),
            Progress::Running(_) => self.body(&command.item),
        }
    }

    /// Ends an article, and begins the next with an empty stack and an empty dictionary, before its first command. It
    /// takes no memory, and never fails.
    pub fn finish(&mut self)
        ensures { finish self.old ≡ Ok self.new }
    {
        self.stack.clear();
        self.dictionary.clear();
        self.remembered.forget();
        self.store.end_article();
        self.left = 0;
        self.progress = Progress::Begun(self.progress.version());
    }

    /// The version of the article that is read, once its first command has come, and until then that of the article
    /// before it, 6 where there is none. An article that ends without a command is of version 5. It takes no memory.
    pub fn version(&self) -> Version
        ensures { result ≡ last_version self.now.place }
    {
        self.progress.last_version()
    }

    /// The proof that the articles made: its table, its symbols and its steps.
    pub fn proof(&self) -> &Proof
        ensures { result.now.made ≡ self.now.made }
    {
        self.store.proof()
    }

    /// The symbols that are taken, in order of taking, by the numbers of the proof's table.
    pub fn symbols(&self) -> &Symbols
        ensures symbols { (trees : Trees) × AreKnownSymbols trees result.now × (symbols_at trees result.now ≡ symbols_of self.now.made) }
    {
        self.proof().symbols()
    }

    /// The steps that are assumptions, in order of making. Each is a step of the proof.
    pub fn assumptions(&self) -> &[StepId]
        ensures numbers { result.now ≡ self.now.assumptions }
        ensures steps { AreSteps self.now.made result.now }
    {
        self.store.assumptions()
    }

    /// The steps that are exports, in order of making. Each is a step of the proof.
    pub fn exports(&self) -> &[StepId]
        ensures numbers { result.now ≡ self.now.exports }
        ensures steps { AreSteps self.now.made result.now }
    {
        self.store.exports()
    }

    /// What each step says derives from what was defined and assumed.
    pub fn derives(&self)
        ensures { AllByRecursion (Derives (definitions_of self.now.made) (assumptions_of self.now.made)) (sequents_of self.now.made) }
    {
        self.store.derives();
    }

    /// What articles made that the machine obeyed to their ends is a sound run. What each step was given was taken before
    /// it, and what its sequent mentions was taken when it was made; constants stand there at instances of their generic
    /// types, and operators at their numbers of arguments. The assumptions are the steps of that kind, in order of making;
    /// the exports are in order of making, without repeats; and what a definition rests on was taken before it.
    pub fn sound(&self)
        ensures { (articles : List (List ℕ)) → Run articles (accepted (accepted_state self.now)) → IsSoundRun (accepted_state self.now) }
    {}

    // The first command: the number 6 is put on the stack, and may be that of the version.
    fn begin(&mut self, item: &Item) -> Result<(), Fault>
        ensures taken { OnOk result (step_at (Stage.start Six) self.old item.now ≡ Ok self.new) }
        ensures refused { IfErr result (λ fault. Fails fault (step_at (Stage.start Six) self.old item.now)) }
        ensures unchanged { OnErr result (self.new ≡ self.old) }
    {
        match item {
            Item::Number(number) => {
                if *number != 6 {
                    return self.begin_body(item);
                }
                self.stack.push(Object::Number(*number))?;
                self.progress = Progress::Numbered;
                Ok(())
            }
            Item::Name(_) | Item::Word(_) => self.begin_body(item),
        }
    }

    // The command after the number 6: `version` takes the number off.
    fn second(&mut self, item: &Item) -> Result<(), Fault>
        ensures taken { OnOk result (step_at Stage.version self.old item.now ≡ Ok self.new) }
        ensures refused { IfErr result (λ fault. Fails fault (step_at Stage.version self.old item.now)) }
        ensures unchanged { OnErr result (self.new ≡ self.old) }
    {
        match item {
            Item::Word(Word::Version) => {
                self.stack.drop_top(1);
                self.progress = Progress::Running(Version::Six);
                Ok(())
            }
            Item::Number(_) | Item::Name(_) | Item::Word(_) => self.begin_body(item),
        }
    }

    // The command is the first of the body of an article of version 5, whose place is as before where it is refused.
    fn begin_body(&mut self, item: &Item) -> Result<(), Fault>
        ensures taken { OnOk result (obey_item (in_body Five self.old) item.now ≡ Ok self.new) }
        ensures refused { IfErr result (λ fault. Fails fault (obey_item (in_body Five self.old) item.now)) }
        ensures unchanged { OnErr result (self.new ≡ self.old) }
    {
        let before = self.progress;
        self.progress = Progress::Running(Version::Five);
        match self.body(item) {
            Ok(()) => Ok(()),
            Err(fault) => {
                self.progress = before;
                Err(fault)
            }
        }
    }

    // A command of the body, once there is room.
    fn body(&mut self, item: &Item) -> Result<(), Fault>
        ensures taken { OnOk result (obey_item self.old item.now ≡ Ok self.new) }
        ensures refused { IfErr result (λ fault. Fails fault (obey_item self.old item.now)) }
        ensures unchanged { OnErr result (self.new ≡ self.old) }
    {
        self.make_room();
        self.run(item)
    }

    // Gives up names and cells that nothing holds, where there are many. Without memory for that all stays as it is.
    fn make_room(&mut self)
        ensures { self.new ≡ self.old }
    {
        let objects = self.stack.len().saturating_add(self.dictionary.len());
        if self.store.is_crowded(objects, self.left) {
            let _done = self.collect();
        }
    }

    // Gives up names and cells that nothing holds.
    fn collect(&mut self) -> Result<(), Memory>
        ensures { self.new ≡ self.old }
    {
        let mut held = self.store.none_held(self.alloc)?;
        self.stack.hold(&mut held);
        held.hold_values(&self.dictionary);
        let numbers = self.store.give_up(self.alloc, held, &mut self.left)?;
        self.stack.renumber(&numbers);
        numbers.rewrite_values(&mut self.dictionary);
        self.remembered.forget();
        Ok(())
    }

    // A command of the body.
    fn run(&mut self, item: &Item) -> Result<(), Fault>
        ensures taken { OnOk result (obey_item self.old item.now ≡ Ok self.new) }
        ensures refused { IfErr result (λ fault. Fails fault (obey_item self.old item.now)) }
        ensures unchanged { OnErr result (self.new ≡ self.old) }
    {
        match item {
            Item::Number(number) => {
                self.stack.push(Object::Number(*number))?;
                Ok(())
            }
            Item::Name(name) => {
                let name = self.store.keep_name(name)?;
                self.stack.push(Object::Name(name))?;
                Ok(())
            }
            Item::Word(word) => self.word(*word),
        }
    }

    // A word of the body.
    fn word(&mut self, word: Word) -> Result<(), Fault>
        ensures { IsObeyed word self.old self.new result }
    {
        match word {
            Word::Version => Err(Fault::Refused(Kind::VersionPlace)),
            Word::Def => self.define(),
            Word::Ref => self.refer(),
            Word::Remove => self.remove(),
            Word::Nil => commands::nil(&self.store, &mut self.stack),
            Word::Cons => commands::cons(&mut self.store, &mut self.stack),
            Word::HdTl => commands::head_and_tail(&self.store, &mut self.stack),
            Word::TypeOp => commands::type_operator(&self.store, &mut self.stack),
            Word::VarType => commands::type_variable(&mut self.store, &mut self.stack),
            Word::OpType => commands::operator_type(self.alloc, &mut self.store, &mut self.stack),
            Word::Const => commands::constant(&self.store, &mut self.stack),
            Word::ConstTerm => commands::constant_term(&mut self.store, &mut self.stack),
            Word::Var => commands::variable(&self.store, &mut self.stack),
            Word::VarTerm => commands::variable_term(&mut self.store, &mut self.stack),
            Word::AppTerm => commands::application_term(&mut self.store, &mut self.stack),
            Word::AbsTerm => commands::abstraction_term(&mut self.store, &mut self.stack),
            Word::Pop => commands::drop_object(&self.store, &mut self.stack),
            Word::Pragma => commands::drop_object(&self.store, &mut self.stack),
            Word::Refl => inference::refl(&mut self.store, &mut self.stack),
            Word::Assume => inference::assume(&mut self.store, &mut self.stack),
            Word::EqMp => inference::eq_mp(&mut self.store, &mut self.stack),
            Word::AbsThm => inference::abs_thm(&mut self.store, &mut self.stack),
            Word::AppThm => inference::app_thm(&mut self.store, &mut self.stack),
            Word::DeductAntisym => inference::deduct_antisym(&mut self.store, &mut self.stack),
            Word::BetaConv => inference::beta_conv(&mut self.store, &mut self.stack),
            Word::Sym => inference::sym(&mut self.store, &mut self.stack),
            Word::Trans => inference::trans(&mut self.store, &mut self.stack),
            Word::ProveHyp => inference::prove_hyp(&mut self.store, &mut self.stack),
            Word::Subst => {
                inference::subst(
                    self.alloc,
                    &mut self.store,
                    &mut self.stack,
                    &mut self.remembered,
                )
            }
            Word::DefineConst => definitions::define_const(&mut self.store, &mut self.stack),
            Word::DefineConstList => {
                definitions::define_const_list(self.alloc, &mut self.store, &mut self.stack)
            }
            Word::DefineTypeOp => definitions::define_type_op(
                self.alloc,
                &mut self.store,
                &mut self.stack,
                self.progress.version(),
            ),
            Word::Axiom => inference::axiom(self.alloc, &mut self.store, &mut self.stack),
            Word::Thm => inference::thm(self.alloc, &mut self.store, &mut self.stack),
        }
    }

    // Keeps an object under a number.
    fn define(&mut self) -> Result<(), Fault>
        ensures taken { OnOk result (obey self.old word.Def ≡ Ok self.new) }
        ensures refused { IfErr result (λ fault. Fails fault (obey self.old word.Def)) }
        ensures unchanged { OnErr result (self.new ≡ self.old) }
    {
        let key = number_on(&self.stack, 0)?;
        let object = object_on(&self.stack, 1)?;
        self.dictionary.insert(key, object)?;
        self.stack.drop_top(1);
        Ok(())
    }

    // The object that is kept under a number.
    fn refer(&mut self) -> Result<(), Fault>
        ensures taken { OnOk result (obey self.old word.Ref ≡ Ok self.new) }
        ensures refused { IfErr result (λ fault. Fails fault (obey self.old word.Ref)) }
        ensures unchanged { OnErr result (self.new ≡ self.old) }
    {
        let key = number_on(&self.stack, 0)?;
        let Some(object) = self.dictionary.get(&key) else {
            return Err(Fault::Refused(Kind::NoSuchKey));
        };
        let object = *object;
        self.stack.put(1, object);
        Ok(())
    }

    // The object that was kept under a number, which is kept no more.
    fn remove(&mut self) -> Result<(), Fault>
        ensures taken { OnOk result (obey self.old word.Remove ≡ Ok self.new) }
        ensures refused { IfErr result (λ fault. Fails fault (obey self.old word.Remove)) }
        ensures unchanged { OnErr result (self.new ≡ self.old) }
    {
        let key = number_on(&self.stack, 0)?;
        let Some(object) = self.dictionary.remove(&key) else {
            return Err(Fault::Refused(Kind::NoSuchKey));
        };
        self.stack.put(1, object);
        Ok(())
    }
}
