//! The texts of news, written piece by piece: no value of them is made, and no tree is copied.
ghost use Rattle.std.specs.Prelude.{◌≡◌, ◌++◌, map, codes, false, OnOk};
ghost use Rattle.json.specs.Print.{quoted};
ghost use Rattle.serde_json.specs.Written.{compact_text, items_text};
ghost use Rattle.rtdb_model.specs.declared.reply.Reply.TheVariants.{News as Told};
ghost use Rattle.rtdb_model.specs.News.{gone};
ghost use Rattle.rtdb_model.specs.Tidings.{notice_of};
ghost use Rattle.answers.specs.AnswerText.{text, pushed_text, notice_data, items_of};

use crate::answer_writer::AnswerWriter;
use json_tree::NoMemory;
use rtdb_model::{News, Notice, Sight, Tiding, Tidings, What};

impl AnswerWriter {
    /// Writes the text of news, in one pass over them.
    pub(crate) fn put_news(&mut self, news: &News) -> Result<(), NoMemory>
        ensures before { self.new.before ≡ self.old.before }
        ensures text { OnOk result (self.new.text ≡ self.old.text ++ text (Told news.now)) }
    {
        self.piece(b"{\"news\":[")?;
        self.notices(news.as_slice())?;
        self.piece(b"],\"ok\":true}")
    }

    /// Writes the text of news that are sent to a client which did not ask for them, in one pass over them.
    pub fn put_push(&mut self, news: &News) -> Result<(), NoMemory>
        ensures before { self.new.before ≡ self.old.before }
        ensures text { OnOk result (self.new.text ≡ self.old.text ++ pushed_text news.now) }
    {
        self.piece(b"{\"push\":[")?;
        self.notices(news.as_slice())?;
        self.piece(b"]}")
    }

    /// Writes the text of the reply that a poll is given with these tidings, in one pass over what they report,
    /// with no copy of a tree.
    pub(crate) fn put_tidings(&mut self, tidings: &Tidings) -> Result<(), NoMemory>
        ensures before { self.new.before ≡ self.old.before }
        ensures text { OnOk result (self.new.text ≡ self.old.text ++ text (Told tidings.now)) }
    {
        self.piece(b"{\"news\":[")?;
        self.tidings(tidings.as_slice())?;
        self.piece(b"],\"ok\":true}")
    }

    // Writes notices with commas between.
    fn notices(&mut self, notices: &[Notice]) -> Result<(), NoMemory>
        ensures before { self.new.before ≡ self.old.before }
        ensures told { OnOk result (self.new.text ++ codes "]" ≡ self.old.text ++ items_text false (items_of (map notice_data notices.now))) }
    {
        for (index, notice) in notices.iter().enumerate() {
            self.comma(index > 0)?;
            self.notice(notice)?;
        }
        Ok(())
    }

    // Writes tidings with commas between.
    fn tidings(&mut self, tidings: &[Tiding]) -> Result<(), NoMemory>
        ensures before { self.new.before ≡ self.old.before }
        ensures told { OnOk result (self.new.text ++ codes "]" ≡ self.old.text ++ items_text false (items_of (map notice_data (map notice_of tidings.now)))) }
    {
        for (index, tiding) in tidings.iter().enumerate() {
            self.comma(index > 0)?;
            self.tiding(tiding)?;
        }
        Ok(())
    }

    fn notice(&mut self, notice: &Notice) -> Result<(), NoMemory>
        ensures before { self.new.before ≡ self.old.before }
        ensures text { OnOk result (self.new.text ≡ self.old.text ++ compact_text (notice_data notice.now)) }
    {
        match &notice.what {
            What::Gone => self.gone(notice.id.text()),
            What::Now(tree) => {
                self.name(notice.id.text())?;
                self.tree(tree.as_ref())?;
                self.piece(b"}")
            }
        }
    }

    fn tiding(&mut self, tiding: &Tiding) -> Result<(), NoMemory>
        ensures before { self.new.before ≡ self.old.before }
        ensures text { OnOk result (self.new.text ≡ self.old.text ++ compact_text (notice_data (notice_of tiding.now))) }
    {
        match &tiding.what {
            Sight::Gone => self.gone(tiding.id.text()),
            Sight::Now(view) => {
                self.name(tiding.id.text())?;
                self.view(view.as_ref())?;
                self.piece(b"}")
            }
        }
    }

    // Writes that the listener of this name is gone.
    fn gone(&mut self, id: &str) -> Result<(), NoMemory>
        ensures before { self.new.before ≡ self.old.before }
        ensures text { OnOk result (self.new.text ≡ self.old.text ++ compact_text (notice_data (gone id.now))) }
    {
        self.piece(b"{\"cancelled\":true,\"id\":")?;
        self.string(id)?;
        self.piece(b"}")
    }

    // Writes what stands before a value that is reported under this name.
    fn name(&mut self, id: &str) -> Result<(), NoMemory>
        ensures before { self.new.before ≡ self.old.before }
        ensures text { OnOk result (self.new.text ≡ self.old.text ++ (codes "{\"id\":" ++ (quoted id.now ++ codes ",\"value\":"))) }
    {
        self.piece(b"{\"id\":")?;
        self.string(id)?;
        self.piece(b",\"value\":")
    }
}
