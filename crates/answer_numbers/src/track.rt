// The numbers of a camera or light section's summary.
ghost use Rattle.std.specs.Prelude.{◌≡◌};
ghost use Rattle.answer_numbers.specs.Put.{put};
ghost use Rattle.answer_numbers.specs.Tracks.{track_summary};

use crate::answers::Numbers;
use crate::put;
use camera_light::track::PmmDocumentTrackSummary;

impl Numbers for PmmDocumentTrackSummary {
    ghost numbers = { track_summary };

    #[tactic(auto, unfolding(crate::specs::Tracks::track_summary))]
    fn put(self, values: &mut [u64]) {
        let numbers = [
            self.offset as u64,
            self.offset_end as u64,
            self.initial_keyframes as u64,
            self.keyframes as u64,
            self.keyframe_count_offset as u64,
            self.keyframes_offset as u64,
            self.keyframes_end_offset as u64,
            self.state_offset as u64,
            self.state_end_offset as u64,
        ];
        put::put(values, 0, &numbers);
    }
}
