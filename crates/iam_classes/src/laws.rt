// What is true of all statements and rows.
ghost use Rattle.iam_classes.specs.Batch.{RowsFind};

/// Where the rows of statements reach to an action, those that act on it can be found.
pub fn rows_find()
    ensures { RowsFind }
{}
