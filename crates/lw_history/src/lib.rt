//! What a thread that lists lines keeps of its log while it runs, and what that leaves once it ends: laws on lists alone.
#![tactic(auto)]

mod laws;

pub use laws::{
    all_are_spared, apps_leave_logs, clients_leave_logs, holds_keep_up, lines_are_counted,
    none_are_made, none_are_to_be_spared, rows_are_taken_in, rows_keep_up, sends_are_asked,
    sends_are_made, sends_are_replaced, sends_are_the_logs, tokens_go_on, tokens_spare_done,
    tokens_stand_before_the_last,
};
