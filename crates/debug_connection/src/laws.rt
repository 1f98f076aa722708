//! Laws of a connection. The functions do nothing; their contracts are the laws.
ghost use Rattle.debug_connection.specs.Pieces.{FrontsArePut, PiecesAreHeardAlike};
ghost use Rattle.debug_connection.specs.Pieces.{PiecesArePutAlike};

/// It doesn't matter for what is put into which pieces the bytes are cut.
pub fn pieces_are_put_alike()
    ensures { PiecesArePutAlike }
{}

/// Nor for what the connection is behind them.
pub fn pieces_are_heard_alike()
    ensures { PiecesAreHeardAlike }
{}

/// What is put at the first bytes is what is put first at all.
pub fn fronts_are_put()
    ensures { FrontsArePut }
{}
