//! Lines, sessions, answers, users and rooms, and what an effect on a line does to them.
ghost use Rattle.std.specs.Prelude.{◌≡◌, ℕ, ◌+◌, ◌<◌, ◌≤◌, [], ◌∷◌, length, true, slice_index_or};
ghost use Rattle.session_table.specs.Tables.{is_fresh, line_of};
ghost use Rattle.house_model.specs.Answers.{answer_text};
ghost use Rattle.house_model.specs.Traffic.{brief};
ghost use Rattle.house_model.specs.Effects.{At, Log, Say, apply};
ghost use Rattle.house_world.specs.Wholes.{AreUsers, IsFew, IsTied};
ghost use Rattle.house_world.specs.Worlds.{Did, seen};

use crate::answers::Answers;
use archive_table::Archives;
use contact_table::Book;
use house_model::Answer;
use mark_sets::Marks;
use muc_service::Rooms;
use session_table::Table;

/// Lines and sessions, the answers that wait at each line, what is kept of users, the rooms, and the archives.
#[derive(Drop)]
pub struct World {
    /// Lines and sessions.
    pub table: Table,
    /// The answers that wait at each line.
    pub answers: Vec<Answers>,
    /// What is kept of users.
    pub book: Book,
    /// The rooms that are there.
    pub rooms: Rooms,
    /// The messages that are kept of users and of rooms.
    pub archives: Archives,
    /// Lines that may have something to pull, because of an event of another line. Nothing is promised of it, and nothing else depends on it.
    pub stirred: Marks,
}

impl World {
    /// An answer waits at a line. Takes no memory.
    pub fn say(&mut self, w: u32, answer: Answer)
        requires line { w < length self.old.answers.items }
        requires room { length (slice_index_or self.old.answers.items w []) < 8 }
        requires short { length (answer_text answer) ≤ 524288 }
        requires tied { IsTied self.old.table }
        ensures { Did (At w (Say answer) ∷ []) 0 self.old self.new }
    {
        self.answers[w as usize].say(answer);
    }

    /// The connection at a line is the user's. Takes no memory.
    pub fn log(&mut self, w: u32, user: u32)
        requires line { w < length self.old.table.lines }
        requires fresh { is_fresh (line_of w self.old.table) ≡ true }
        requires tied { IsTied self.old.table }
        ensures world { seen self.new ≡ apply brief (seen self.old) (At w (Log user)) }
        ensures tied { IsTied self.new.table }
        ensures users { (many : ℕ) → AreUsers many self.old.table → user < many → AreUsers many self.new.table }
        ensures few { (turns : ℕ) → IsFew turns self.old.table → IsFew turns self.new.table }
        ensures answered { self.new.answers.items ≡ self.old.answers.items }
        ensures book { self.new.book ≡ self.old.book }
        ensures rooms { self.new.rooms ≡ self.old.rooms }
        ensures archives { self.new.archives ≡ self.old.archives }
        ensures lines { length self.new.table.lines ≡ length self.old.table.lines }
    {
        self.table.login(w, user);
    }
}
