//! What one `nvcc` call runs: its commands in groups, and those that it drops, each with a reason.
#![tactic(auto)]

mod environment;
mod groups;
mod labels;
pub mod laws;
mod merged_commands;
mod openings;
mod plan;
mod setting;
mod stage;

pub use compilers::plans::{
    Dropped, DroppedCommands, Groups, NvccGeneratedSubcommand, Origin, Origins, Plan,
    PlanWithOrigins, Reason,
};
pub use environment::with_variables;
pub use plan::{
    group_nvcc_subcommands_by_compilation_stage,
    group_nvcc_subcommands_by_compilation_stage_within, plan_of_parsed, plan_with_origins,
    plan_with_origins_within,
};
pub use setting::CallToPlan;
