// Pieces and their letters, boards, and the refusals of the library.
#![tactic(auto)]

mod board;
mod pieces;
mod refusal;

pub use board::Board;
pub use pieces::{Kind, Piece, Side};
pub use refusal::{Layer, Refusal};

#[cfg(test)]
mod tests {
    use super::*;

    fn number(read: Result<Board, Refusal>) -> u8 {
        match read {
            Ok(_) => 0,
            Err(why) => why.number(),
        }
    }

    #[test]
    fn setups(rt: HostRuntime) {
        assert_eq!(rt;
            number(Board::from_setup(Side::Gold, b"RRRRRRRRCDHMEHDC")),
            0
        );
        assert_eq!(rt;
            number(Board::from_setup(Side::Silver, b"cdhmehdcrrrrrrrr")),
            0
        );
        assert_eq!(rt;
            number(Board::from_setup(Side::Gold, b"RRRRRRRRCDHMEHD")),
            6
        );
        assert_eq!(rt;
            number(Board::from_setup(Side::Gold, b"cdhmehdcrrrrrrrr")),
            8
        );
        assert_eq!(rt;
            number(Board::from_setup(Side::Gold, b"RRRRRRRRCDHMEHD.")),
            8
        );
        assert_eq!(rt;
            number(Board::from_setup(Side::Silver, b"cdhmehddrrrrrrrr")),
            9
        );
    }

    #[test]
    fn layers(rt: HostRuntime) {
        assert!(rt; Refusal::Form.layer() == Layer::Notation);
        assert!(rt; Refusal::ShortMemory.layer() == Layer::Caller);
        assert!(rt; Refusal::CountFull.layer() == Layer::Store);
        assert!(rt; Refusal::UnfinishedPush.layer() == Layer::Rules);
    }
}
