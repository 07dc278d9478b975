//! The games: for each the type of its puzzles, the memory of their searches, its name, and a file
//! of what the commands ask of its puzzles.
ghost use Rattle.std.specs.Prelude.{◌≡◌, option_map};
ghost use Rattle.commands.specs.Games.{game_named, usual_black};

pub(crate) mod light_up;
pub(crate) mod pattern;
pub(crate) mod solo;
pub(crate) mod tents;

use crate::generate::percent::Percent;
use engine_core::Store;
use fields_core::{LightRules, TentRules};
use gameid_core::Game;
use pattern_core::PatternLines;
use solo_core::SoloHouses;

/// The memory of an earlier search of each game, for the next ones that it is enough for.
#[derive(Default)]
pub struct Stores {
    pub solo: Option<Store<SoloHouses>>,
    pub pattern: Option<Store<PatternLines>>,
    pub lights: Option<Store<LightRules>>,
    pub tents: Option<Store<TentRules>>,
}

impl Drop for Stores {
    fn drop(self) {
        let Stores {
            solo,
            pattern,
            lights,
            tents,
        } = self;
    }
}

/// A call at a game, where `_` stands for the type of its puzzles, and for its field of stores.
macro_rules! by_game {
    (@ $puzzle:ty, $kept:ident, $f:ident::<_>($alloc:expr, &mut $all:ident._ $(, $arg:expr)*)) => {
        $f::<$puzzle>($alloc, &mut $all.$kept $(, $arg)*)
    };
    (@ $puzzle:ty, $kept:ident, $f:ident::<_ $(, $type:ty)*>($($arg:expr),*)) => {
        $f::<$puzzle $(, $type)*>($($arg),*)
    };
    ($game:expr, $($to:tt)*) => {
        match $game {
            gameid_core::Game::Solo => by_game!(@ gameid_core::SoloPuzzle, solo, $($to)*),
            gameid_core::Game::Pattern => by_game!(@ gameid_core::PatternPuzzle, pattern, $($to)*),
            gameid_core::Game::LightUp => by_game!(@ gameid_core::LightPuzzle, lights, $($to)*),
            gameid_core::Game::Tents => by_game!(@ gameid_core::TentsPuzzle, tents, $($to)*),
        }
    };
}

pub(crate) use by_game;

/// The game of that name.
pub fn game_named(text: &str) -> Option<Game>
    ensures { result ≡ game_named text.now }
{
    match text {
        "solo" => Some(Game::Solo),
        "pattern" => Some(Game::Pattern),
        "lightup" => Some(Game::LightUp),
        "tents" => Some(Game::Tents),
        _ => None,
    }
}

/// The percentage of black cells where the words name none, in the games that have some.
pub fn usual_black(game: Game) -> Option<Percent>
    ensures { option_map (λ p. p.value) result ≡ usual_black game }
{
    match game {
        Game::Pattern => Some(Percent { value: 50 }),
        Game::LightUp => Some(Percent { value: 20 }),
        _ => None,
    }
}
