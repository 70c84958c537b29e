//! The image of one object.
ghost use Rattle.std.specs.Prelude.{◌≡◌, ◌+◌, ◌≤◌, length, take};
ghost use Rattle.swizzle.specs.obj_layout.Header.{object_length};
ghost use Rattle.swizzle.specs.obj_layout.Stored.{IsHeaded};
ghost use Rattle.swizzle.specs.Objects.{size_of};
ghost use Rattle.swizzle.specs.Heap.{IsHeld, object_at, top_of};
ghost use Rattle.swizzle.specs.Image.{HasPids};
ghost use Rattle.commit_images.specs.Images.{image_of};

use swizzle::swizzle::Swizzle;

/// Writes the image of an object at the start of the buffer; returns how many words it has. There are no flags, no PID and no index of the area in it.
pub fn make_image(sw: &Swizzle, object: u32, buffer: &mut [u64]) -> usize
    requires held { IsHeld sw.now object }
    requires pids { HasPids sw.now object }
    requires room { top_of sw.now ≤ length buffer.old + 1 }
    ensures count { result ≡ size_of (object_at sw.now object) }
    ensures within { result ≤ length buffer.new }
    ensures image { take result buffer.new ≡ image_of sw.now object }
    ensures headed { IsHeaded (image_of sw.now object) }
    ensures buffer { length buffer.new ≡ length buffer.old }
{
    sw.sound();
    let header = sw.header(object);
    let count = 4 + header.refs as usize + header.nums as usize;
    sw.image(object, &mut buffer[..count]);
    count
}
