//! Each law is the contract of a function that does nothing.

ghost use Rattle.history_samples.specs.Lines.{EditsAreSpelled, RepliesAreTold};
ghost use Rattle.history_samples.specs.Orders.{OrdersAreTaken, OrdersAreRefused};
ghost use Rattle.history_samples.specs.Reports.{ClashIsReported, GuardsAreContested, HeadIsEdited, MinimalRunIsReported, TwoSessionsAreReported};
ghost use Rattle.history_samples.specs.Reports.{ViewEndsTheClash};

/// The lines of edits of every kind of record.
pub fn lines_are_spelled()
    ensures { EditsAreSpelled }
{}

/// The lines of answers.
pub fn replies_are_told()
    ensures { RepliesAreTold }
{}

/// Which texts are orders, and where others first go wrong.
pub fn orders_are_judged()
    ensures taken { OrdersAreTaken }
    ensures refused { OrdersAreRefused }
{}

/// What is reported of scripts on a cell in an order.
pub fn runs_are_reported()
    ensures minimal { MinimalRunIsReported }
    ensures clash { ClashIsReported }
    ensures until_a_view { ViewEndsTheClash }
    ensures two_sessions { TwoSessionsAreReported }
    ensures guards { GuardsAreContested }
    ensures head { HeadIsEdited }
{}
