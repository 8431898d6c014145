// The laws of receipts, each as the contract of a function, so that its proof is owed.
ghost use Rattle.receipts.specs.Laws.{ReceiptsExact, ReceiptsDetermined, CountsTrue, AccountsBalance, RowsSound};
ghost use Rattle.receipts.specs.Examples.{Examples};

// The handed-out lines are exactly those of both canonical histories' join that end before the closed time, each once.
pub fn receipts_are_exact()
    ensures { ReceiptsExact }
{}

// Lines and counts depend on the histories up to the closed time alone.
pub fn receipts_are_determined()
    ensures { ReceiptsDetermined }
{}

// Each window's count is that of both canonical histories' join.
pub fn counts_are_true()
    ensures { CountsTrue }
{}

// Inserts are rows taken away whole, rows purged and rows held; the windows lie side by side from 0 to the closed time.
pub fn accounts_balance()
    ensures { AccountsBalance }
{}

// Every row of a canonical history has lawful times, and a payload in its kind's range.
pub fn rows_are_sound()
    ensures { RowsSound }
{}

// The worked examples hold of the definitions.
pub fn examples_hold()
    ensures { Examples }
{}
