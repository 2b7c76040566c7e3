//! Laws of the pass: a module with its notes, and its code, ask what the module asks whose stores note by themselves.
//!
//! There is no code in this crate. Each law is the contract of a function that only calls other laws.
#![tactic(auto)]

ghost use Rattle.ds_pass_laws.specs.Laws.{NotedModulesAgree, NotedCodeMeans, NotesKeepLayout};

use ds_safe_laws::accepted_means;

/// An accepted module with its notes asks what the module asks whose stores of pointers note by themselves.
pub fn noted_modules_agree()
    ensures { NotedModulesAgree }
{
    accepted_means();
}

/// So does the code that it is lowered to.
pub fn noted_code_means()
    ensures { NotedCodeMeans }
{
    accepted_means();
}

/// A module that has a layout has one with its notes.
pub fn notes_keep_layout()
    ensures { NotesKeepLayout }
{}
