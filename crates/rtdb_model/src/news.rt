//! News: what a poll reports of a session's listeners.
ghost use Rattle.std.specs.Prelude.{◌≡◌};

use json_tree::Node;
use listeners::ListenerId;
use std::marker::Model;

/// What a poll reports of a listener.
#[derive(Debug, Drop)]
pub enum What {
    /// It is cancelled, since its read is no longer granted, and it is listened to no more.
    Gone,
    /// What it selects now, None where nothing exists.
    Now(Option<Node>),
}

/// What a poll reports under the id of a listener.
#[derive(Debug, Drop)]
pub struct Notice {
    pub id: ListenerId,
    pub what: What,
}

/// The notices of a poll, in the order in which their listeners began. Contracts see them as a list.
#[derive(Debug, Drop)]
pub struct News {
    held: Vec<Notice>,
}

impl Model for News {
    ghost use Rattle.std.specs.Prelude.{List};
    ghost use Rattle.std.specs.Coded.{coded_list};
    ghost use Rattle.rtdb_model.specs.News.{notice_code};
    ghost use Rattle.rtdb_model.specs.declared.news.Notice.{Notice};

    ghost Value = { List Notice };

    ghost coded = { coded_list notice_code };

    ghost view = { λ news. news.held.items };
}

impl News {
    /// The notices of a vector, without taking memory.
    pub fn of_vec(held: Vec<Notice>) -> News
        ensures { result ≡ held.items }
    {
        News { held }
    }

    /// The notices. It takes no memory.
    pub fn as_slice(&self) -> &[Notice]
        ensures { result.now ≡ self.now }
    {
        self.held.as_slice()
    }
}
