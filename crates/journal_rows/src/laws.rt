//! The laws of reports, of what rules make, of imports, and of what is written and read again, called once.
use closed_journals::{closing_joins, closing_loads, opening_carries};
use csv_rules::import_laws;
use generated::assignments_stay;
use journal_listings::nothing_asked;
use plan_commands::{any_year, plain_reports, request_refused, request_runs};
use printed_entries::{entry_reads, printed_reads, styles_show};
use report_commands::{text_faults, text_solves};
use sample_journals::{samples_load, samples_tell};
use time_logs::seconds_sum;
use written_logs::{
    command_loads, hours_load, hours_own, plain_loads, plain_reads, timeclock_plain, timedot_plain,
};

#[test]
fn the_laws_of_reports_hold() {
    import_laws();
    assignments_stay();
    nothing_asked();
    any_year();
    request_runs();
    request_refused();
    plain_reports();
    text_solves();
    text_faults();
}

#[test]
fn the_laws_hold() {
    closing_loads();
    closing_joins();
    opening_carries();
    samples_load();
    samples_tell();
    printed_reads();
    entry_reads();
    styles_show();
    seconds_sum();
    timeclock_plain();
    timedot_plain();
    plain_reads();
    plain_loads();
    hours_load();
    hours_own();
    command_loads();
}
