//! What the lines of a file of rules say together.
ghost use Rattle.std.specs.Prelude.{◌≡◌, ◌++◌, ◌∷◌, [], IfOk, OnOk, None};
ghost use Rattle.csv_rules.specs.Drafts as spec;
ghost use Rattle.csv_rules.specs.Drafts.{progress_of};

use crate::columns::push_columns;
use crate::forms::{Form, Setting, Stage};
use crate::kinds::{Action, Assignment, Block, Condition, DatePart, Settings, Sheet};
use hl_base::{List, Memory, Text};
use std::alloc::Global;
use std::mem;

/// What the lines so far say: the parts of a `Sheet`, those of the block that is open, and where the next line stands.
#[derive(Drop)]
pub(crate) struct Draft {
    settings: Settings,
    names: List<Text>,
    format: Option<List<DatePart>>,
    assignments: Vec<Assignment>,
    blocks: Vec<Block>,
    conditions: Vec<Condition>,
    actions: Vec<Action>,
    stage: Stage,
}

fn settings_with(settings: Settings, setting: Setting) -> Settings
    ensures { result ≡ spec.settings_with settings setting }
{
    match setting {
        Setting::Skip(count) => Settings {
            skipped: count,
            separator: settings.separator,
            mark: settings.mark,
            newest_first: settings.newest_first,
            reversed_days: settings.reversed_days,
        },
        Setting::Separator(byte) => Settings {
            skipped: settings.skipped,
            separator: byte,
            mark: settings.mark,
            newest_first: settings.newest_first,
            reversed_days: settings.reversed_days,
        },
        Setting::DecimalMark(byte) => Settings {
            skipped: settings.skipped,
            separator: settings.separator,
            mark: Some(byte),
            newest_first: settings.newest_first,
            reversed_days: settings.reversed_days,
        },
        Setting::NewestFirst => Settings {
            skipped: settings.skipped,
            separator: settings.separator,
            mark: settings.mark,
            newest_first: true,
            reversed_days: settings.reversed_days,
        },
        Setting::IntradayReversed => Settings {
            skipped: settings.skipped,
            separator: settings.separator,
            mark: settings.mark,
            newest_first: settings.newest_first,
            reversed_days: true,
        },
    }
}

impl Draft {
    /// What no line says.
    pub(crate) fn new(alloc: Global) -> Draft
        ensures { progress_of result ≡ spec.start }
    {
        Draft {
            settings: Settings {
                skipped: 0,
                separator: b',',
                mark: None,
                newest_first: false,
                reversed_days: false,
            },
            names: List::new(alloc),
            format: None,
            assignments: Vec::new(alloc),
            blocks: Vec::new(alloc),
            conditions: Vec::new(alloc),
            actions: Vec::new(alloc),
            stage: Stage::Outside,
        }
    }

    /// Where the next line stands.
    pub(crate) fn stage(&self) -> Stage
        ensures { result ≡ (progress_of self.now).stage }
    {
        self.stage
    }

    /// Puts the open block behind the others.
    fn close_block(&mut self, alloc: Global) -> Result<(), Memory>
        ensures { OnOk result (progress_of self.new ≡ spec.without_block (progress_of self.old)) }
    {
        let conditions = mem::replace(&mut self.conditions, Vec::new(alloc));
        let actions = mem::replace(&mut self.actions, Vec::new(alloc));
        self.blocks.push(Block {
            conditions: List::from_vec(conditions),
            actions: List::from_vec(actions),
        })?;
        self.stage = Stage::Outside;
        Ok(())
    }

    /// Ends the block that is open, if one is.
    fn close(&mut self, alloc: Global) -> Result<(), Memory>
        ensures { OnOk result (progress_of self.new ≡ spec.closed (progress_of self.old)) }
    {
        match self.stage {
            Stage::Acting => self.close_block(alloc),
            Stage::Outside | Stage::Opened | Stage::Asking => Ok(()),
        }
    }

    /// Adds the names of the columns, and the fields that they assign.
    fn put_names(&mut self, names: List<Text>) -> Result<(), Memory>
        ensures { OnOk result (progress_of self.new
            ≡ spec.with_names (progress_of self.old) names) }
    {
        push_columns(&mut self.assignments, names.as_slice())?;
        self.names = names;
        Ok(())
    }

    fn put_assignment(&mut self, assignment: Assignment) -> Result<(), Memory>
        ensures { OnOk result (progress_of self.new
            ≡ spec.with_assignment (progress_of self.old) assignment) }
    {
        self.assignments.push(assignment)?;
        Ok(())
    }

    fn put_condition(&mut self, condition: Condition) -> Result<(), Memory>
        ensures { OnOk result (progress_of self.new
            ≡ spec.with_condition (progress_of self.old) condition) }
    {
        self.conditions.push(condition)?;
        self.stage = Stage::Asking;
        Ok(())
    }

    fn put_action(&mut self, action: Action) -> Result<(), Memory>
        ensures { OnOk result (progress_of self.new
            ≡ spec.with_action (progress_of self.old) action) }
    {
        self.actions.push(action)?;
        self.stage = Stage::Acting;
        Ok(())
    }

    /// Opens a block, perhaps with its first pattern.
    fn open(&mut self, condition: Option<Condition>) -> Result<(), Memory>
        ensures { OnOk result (progress_of self.new
            ≡ spec.opened (progress_of self.old) condition) }
    {
        match condition {
            Some(condition) => self.put_condition(condition),
            None => {
                self.stage = Stage::Opened;
                Ok(())
            }
        }
    }

    /// Adds what a line outside blocks says.
    fn put_rule(&mut self, form: Form) -> Result<(), Memory>
        ensures { OnOk result (progress_of self.new ≡ spec.with_rule (progress_of self.old) form) }
    {
        match form {
            Form::Set(setting) => {
                self.settings = settings_with(self.settings, setting);
                Ok(())
            }
            Form::Fields(names) => self.put_names(names),
            Form::DateFormat(parts) => {
                self.format = Some(parts);
                Ok(())
            }
            Form::Assign(assignment) => self.put_assignment(assignment),
            Form::If(condition) => self.open(condition),
            Form::Remark | Form::Ask(_) | Form::Act(_) => Ok(()),
        }
    }

    /// Adds what the next line says.
    pub(crate) fn put(&mut self, alloc: Global, form: Form) -> Result<(), Memory>
        ensures { OnOk result (progress_of self.new ≡ spec.put (progress_of self.old) form) }
    {
        match form {
            Form::Remark => Ok(()),
            Form::Ask(condition) => self.put_condition(condition),
            Form::Act(action) => self.put_action(action),
            rule => {
                self.close(alloc)?;
                self.put_rule(rule)
            }
        }
    }

    /// What all lines say, if no block is open that has no assignment.
    pub(crate) fn finish(mut self, alloc: Global) -> Result<Option<Sheet>, Memory>
        ensures { IfOk result (λ sheet. sheet ≡ spec.finished (progress_of self)) }
    {
        match self.stage {
            Stage::Opened | Stage::Asking => return Ok(None),
            Stage::Outside | Stage::Acting => {}
        }
        self.close(alloc)?;
        Ok(Some(Sheet {
            settings: self.settings,
            names: self.names,
            format: self.format,
            assignments: List::from_vec(self.assignments),
            blocks: List::from_vec(self.blocks),
        }))
    }
}
