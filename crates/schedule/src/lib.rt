//! Schedules and reports: their lines, their texts, and which report explains which schedule.
//!
//! A schedule names requests, the order of their single steps, the clock, disk faults and machine stops. A report has
//! what each step printed, each reply, and the whole history that came of it. *Explained* (`specs/Explained`) says
//! which reports a schedule may have; the run law (`runs_are_serial`) says that whoever steps rightly, item by item,
//! prints such a report.
#![tactic(auto)]

mod item;
mod item_writer;
mod laws;
mod line;
mod reader;
mod row;
mod worked;
mod writer;

pub use item::{Item2, Schedule, WORKERS};
pub use item_writer::write_item;
pub use laws::{
    one_bad_line, one_schedule, packs_leave_what_is_armed, reports_fall_into_sections,
    requests_keep_pace, runs_are_serial, serial_runs_join, served_runs_are_serial,
    served_runs_replay,
};
pub use line::Line;
pub use reader::{ScheduleRefusal, read_schedule};
pub use worked::{
    conflict_is_explained, cut_off_finish_is_explained, early_commit_is_refuted,
    hindered_packs_are_explained, lossy_restart_is_refuted, missed_conflict_is_refuted,
    pack_is_explained, packed_file_is_explained, second_vote_is_refuted,
    unhindered_steps_are_these,
};
pub use writer::{line_bytes, record_bytes, transaction_bytes, write_line};
