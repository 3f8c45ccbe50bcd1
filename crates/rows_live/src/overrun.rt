//! The queue of the model's keyboard.

use model_keyboard::Queue;

#[test]
fn the_seventeenth_byte_is_an_overrun(rt: HostRuntime) {
    let mut queue = Queue::new();
    for _k in 0..8 {
        queue.enter(&[0xf0, 0x1c]);
    }
    queue.enter(&[0x1b]);
    for k in 0..16 {
        let byte = if k % 2 == 0 { 0xf0 } else { 0x1c };
        assert!(rt; queue.first() == Some(byte), "byte {k}");
        if queue.first().is_some() {
            queue.drop_first();
        }
        queue.enter(&[0x23]);
    }
    assert!(rt; queue.first() == Some(0x00));
    queue.clear();
    assert!(rt; queue.first().is_none());
}
