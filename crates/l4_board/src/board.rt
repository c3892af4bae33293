//! The board: one word with the length of the history, which every watch can read.
ghost use Rattle.std.specs.Prelude.{◌≡◌, ◌+◌, ◌≤◌, ℕ, false, true, [], IfOk, vec_len};
ghost use Rattle.std.specs.List.{All};
ghost use Rattle.l4_board.specs.Board.{IsNewWatch, publishing, watching};

use atomic_table::{Play, Seat, Table, TableRule};
use std::alloc::{AllocError, Global};
use std::marker::Model;
use std::sync::Arc;

/// The view of one participant: whether it is the publisher, how often it has looked, and the number that it has
/// seen. It exists in contracts only.
/// seen. It exists in contracts only.
pub struct View {
    pub publishes: bool,
    pub looks: u64,
    pub seen: u64,
}

/// The rule of the board: the word is the last published number, only the publisher stores it, and no watch has seen
/// a greater one. It exists in contracts only.
pub struct BoardRule;

impl TableRule<(), View, ()> for BoardRule {
    ghost use Rattle.l4_board.specs.Board.{IsBoard, view};
    ghost use Rattle.std.specs.Prelude.{true};

    ghost holds = { λ _ s. IsBoard s };

    ghost first = { λ _. view true 0 0 };
}

/// The step in which a new watch joins the board.
struct Begin;

impl Play<(), View> for Begin {
    ghost use Rattle.l4_board.specs.Board.{Begins};

    ghost then = { Begins };
}

/// The step that stores the word.
struct Publish;

impl Play<(), View> for Publish {
    ghost use Rattle.l4_board.specs.Board.{Publishes};

    ghost then = { Publishes };
}

/// The step that loads the word.
struct Look;

impl Play<(), View> for Look {
    ghost use Rattle.l4_board.specs.Board.{Looks};

    ghost then = { Looks };
}

/// A handle of the board. You can look at the board through it with a watch of this board. Contracts see which board it is.
#[derive(Drop)]
pub struct Board {
    table: Arc<Table<(), View, (), BoardRule, Global>>,
}

impl Model for Board {
    ghost use Rattle.std.specs.Prelude.{◌≡◌};
    ghost use Rattle.std.specs.Arc.{arc_value};
    ghost use Rattle.atomic_table.specs.Seated.{TableId, table_id_coded};

    ghost Value = { TableId };

    ghost coded = { table_id_coded };

    ghost view = { λ b. (arc_value b.table).shared.table_id };

    ghost invariant = { λ b. (arc_value b.table).shared.table_id.words ≡ 1 };
}

/// The right to look at a board. Contracts see its board, how often it has looked, and the number that it saw last.
#[derive(Drop)]
pub struct Watch {
    seat: Seat<(), View>,
}

impl Model for Watch {
    ghost use Rattle.std.specs.Prelude.{◌≡◌, false};
    ghost use Rattle.l4_board.specs.Board.{Watching, watching, watching_code};

    ghost Value = { Watching };

    ghost coded = { watching_code };

    ghost view = { λ w. watching w.seat.table_id w.seat.me.0.looks w.seat.me.0.seen };

    ghost invariant = { λ w. w.seat.me.0.publishes ≡ false };
}

/// The right to publish on a board. There is one for each board. Contracts see its board and the last published
/// number.
#[derive(Drop)]
pub struct Publisher {
    board: Board,
    seat: Seat<(), View>,
}

impl Model for Publisher {
    ghost use Rattle.std.specs.Prelude.{◌≡◌, true, []};
    ghost use Rattle.l4_board.specs.Board.{Publishing, publishing, publishing_code};

    ghost Value = { Publishing };

    ghost coded = { publishing_code };

    ghost view = { λ p. publishing p.seat.table_id p.seat.me.0.seen };

    ghost invariant = { λ p. (p.seat.table_id ≡ p.board) × (p.seat.id ≡ 0) × (p.seat.me.0.publishes ≡ true) × (p.seat.me.1 ≡ []) };
}

impl Board {
    /// Returns the board's word: the length of the history when it was last published. It is never below what this
    /// watch has seen before. It does not wait, and needs no memory.
    ///
    /// Condition: the watch belongs to this board, as those do that were created with it.
    pub fn look(&self, watch: &mut Watch) -> u64
        requires { watch.old.board ≡ self.now }
        ensures rises { watch.old.seen ≤ result }
        ensures watch { watch.new ≡ watching self.now (watch.old.looks + 1) result }
    {
        self.table.shared.load::<Look>(&mut watch.seat, 0)
    }

    /// Returns another handle of the board.
    pub fn again(&self) -> Result<Board, AllocError>
        ensures { IfOk result (λ b. b ≡ self.now) }
    {
        let table = Arc::try_clone(&self.table)?;
        Ok(Board { table })
    }

    /// Returns a new watch, which has not looked yet.
    pub fn watch(&self) -> Watch
        ensures { IsNewWatch self.now result }
    {
        let (_, seat) = self.table.shared.load_new_seat::<Begin>(0);
        Watch { seat }
    }

    /// Returns this number of new watches.
    pub fn watches(&self, alloc: Global, count: usize) -> Result<Vec<Watch>, AllocError>
        ensures { IfOk result (λ v. (vec_len v ≡ count) × All (IsNewWatch self.now) v.items) }
    {
        let mut watches = Vec::with_capacity(alloc, count)?;
        for i in 0..count {
            prove!(i < count);
            watches.push_reserved(self.watch());
        }
        Ok(watches)
    }
}

impl Publisher {
    /// Returns the publisher of a new board, whose word is 0.
    pub fn new(alloc: Global) -> Result<Publisher, AllocError>
        ensures { IfOk result (λ p. p.shown ≡ 0) }
    {
        let (table, seat) = Table::<(), View, (), BoardRule, Global>::of_words(alloc, &[0], &())?;
        let table = Arc::new(alloc, table)?;
        Ok(Publisher {
            board: Board { table },
            seat,
        })
    }

    /// Returns a handle of the board.
    pub fn board(&self) -> Result<Board, AllocError>
        ensures { IfOk result (λ b. b ≡ self.now.board) }
    {
        self.board.again()
    }

    /// Publishes a number that is not below the last one.
    pub fn publish(&mut self, number: u64)
        requires { self.old.shown ≤ number }
        ensures { self.new ≡ publishing self.old.board number }
    {
        let Publisher { board, seat } = self;
        show(board, seat, number);
    }
}

/// Stores a number under the publisher's seat.
fn show(board: &Board, seat: &mut Seat<(), View>, number: u64)
    requires table { seat.old.table_id ≡ board.now }
    requires publishes { (seat.old.id ≡ 0) × (seat.old.me.0.publishes ≡ true)
        × (seat.old.me.0.seen ≤ number) }
    ensures place { (seat.new.table_id ≡ seat.old.table_id) × (seat.new.id ≡ seat.old.id) }
    ensures view { (seat.new.me.0.publishes ≡ true) × (seat.new.me.0.seen ≡ number)
        × (seat.new.me.1 ≡ seat.old.me.1) }
{
    board.table.shared.store::<Publish>(seat, 0, number);
}
