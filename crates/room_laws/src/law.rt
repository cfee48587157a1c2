//! What the entries of sessions in one history tell of a run of their scripts.

ghost use Rattle.std.specs.Prelude.{◌≡◌, ◌≤◌, ◌*◌, ℕ, List, All, length};
ghost use Rattle.std.specs.List.{flat_map, enumerate_from};
ghost use Rattle.s57_types.specs.declared.cell.Cell.{Cell};
ghost use Rattle.text_spec.specs.declared.command.Command.{Command};
ghost use Rattle.text_spec.specs.OrderLine.{IsOrder};
ghost use Rattle.history_spec.specs.declared.entry.Entry.{Entry};
ghost use Rattle.history_spec.specs.Entries.{AreInterleaved, AreTold, entries_of, order_of_entries, replayed};
ghost use Rattle.history_spec.specs.EntriesReport.{AreTranscripts, cell_told, entries_report, entry_part};
ghost use Rattle.history_spec.specs.ReportText.{commit_text, final_cell, report};
ghost use Rattle.room_laws.specs.Interleaved.{IsRunOfEntries};
ghost use Rattle.room_laws.specs.Orders.{quotas_of};
ghost use Rattle.room_laws.specs.Served.{LaterIsServed, LocalIsServed, SharedIsServed};

/// Where the entries of sessions stand in one history, the run of the scripts by one thread, in the order of the entries, has these entries and
/// leaves this state.
pub fn entries_are_a_run()
    ensures { (c : Cell) (scripts : List (List Command)) (entries : List Entry) → AreInterleaved c scripts entries → IsRunOfEntries c scripts entries }
{}

/// The report of a history that is kept as entries is that of the run in its entries' order, and so is the cell that is left.
pub fn a_history_has_the_report_of_its_order()
    ensures report { (c : Cell) (scripts : List (List Command)) (entries : List Entry) (texts : List (List ℕ)) → AreInterleaved c scripts entries
        → AreTranscripts c entries 1 scripts texts
        → report c scripts (order_of_entries entries) ≡ entries_report c entries texts }
    ensures cell { (c : Cell) (scripts : List (List Command)) (entries : List Entry) → AreInterleaved c scripts entries
        → final_cell c scripts (order_of_entries entries) ≡ (replayed c entries).cell }
{}

/// The history's part of a report tells the entries' accepted commits, each once and in their order.
pub fn entries_tell_the_accepted_commits()
    ensures { (c : Cell) (entries : List Entry) → AreTold c entries
        → flat_map (commit_text (cell_told c entries)) (enumerate_from 1 (replayed c entries).commits) ≡ flat_map entry_part entries }
{}

/// The order of entries is an order of the scripts, and where there are few entries of each session there are few.
pub fn entries_are_in_order()
    ensures order { (c : Cell) (scripts : List (List Command)) (entries : List Entry) → AreInterleaved c scripts entries
        → IsOrder (quotas_of scripts) (order_of_entries entries) }
    ensures few { (most sessions : ℕ) (entries : List Entry) → All (λ (e : Entry). (1 ≤ e.desk) × (e.desk ≤ sessions)) entries
        → ((i : ℕ) → 1 ≤ i → i ≤ sessions → length (entries_of i entries) ≤ most) → length entries ≤ sessions * most }
{}

/// What a session has done, with its base, its draft and its lines, after one command more: a view or a commit that was answered, or another; and
/// after entries of others. The lines are right however the history goes on.
pub fn a_session_goes_on()
    ensures shared { SharedIsServed }
    ensures local { LocalIsServed }
    ensures later { LaterIsServed }
{}
